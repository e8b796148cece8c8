//! Why points make no lane: the first rule that they break, in one order.
ghost use Rattle.std.specs.Prelude.{◌≡◌, ◌<◌, length, IfSome};
ghost use Rattle.ses_units.specs.Point.{points_of};
ghost use Rattle.ses_units.specs.Refusal.{first_far, first_fall, first_refusal};

use crate::limits::{END, POINTS};
use crate::point::Point;
use thiserror::Error;

/// Why points make no lane. Indices count from 0.
#[derive(Clone, Copy, Debug, PartialEq, Eq, Error)]
pub enum LaneRefusal {
    /// There are so many points, and more than 1,024. A number past 32 bits is told as 2^32 - 1.
    #[error("{0} points, at most 1024")]
    TooMany(u32),
    /// This is the first point at or past place 2^40.
    #[error("point {0} is at or past 2^40")]
    Far(u32),
    /// This is the first point that isn't after the one before it.
    #[error("point {0} is not after the one before it")]
    NotRising(u32),
    /// Memory ran out.
    #[error("out of memory")]
    NoMemory,
}

fn first_far(points: &[Point]) -> Option<usize>
    ensures value { result ≡ first_far (points_of points.now) }
    ensures bound { IfSome result (λ i. i < length points.now) }
{
    points.iter().position(|p| p.at >= END)
}

#[tactic(auto, unfolding(crate::specs::Refusal::first_fall))]
fn first_fall(points: &[Point]) -> Option<usize>
    ensures value { result ≡ first_fall (points_of points.now) }
    ensures bound { IfSome result (λ i. i < length points.now) }
{
    let (first, others) = points.split_first()?;
    let mut before = first.at;
    for (i, p) in others.iter().enumerate() {
        if p.at <= before {
            return Some(i + 1);
        }
        before = p.at;
    }
    None
}

pub(crate) fn first_refusal(points: &[Point]) -> Option<LaneRefusal>
    ensures { result ≡ first_refusal (points_of points.now) }
{
    if points.len() > POINTS {
        let many = points.len().min(u32::MAX as usize);
        return Some(LaneRefusal::TooMany(many as u32));
    }
    if let Some(i) = first_far(points) {
        return Some(LaneRefusal::Far(i as u32));
    }
    if let Some(i) = first_fall(points) {
        return Some(LaneRefusal::NotRising(i as u32));
    }
    None
}
