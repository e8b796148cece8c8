//! A lane: up to 1,024 points in rising place, with room for all of them from the first.
ghost use Rattle.std.specs.Prelude.{◌≡◌, ◌≢◌, ◌+◌, ◌^◌, ◌<◌, ◌≤◌, ◌↔◌, length, vec_capacity, All, IfOk, IfErr, OnOk, OnErr, IsErr, Some, None};
ghost use Rattle.std.specs.List.{AllWithin};
ghost use Rattle.std.specs.List.Sorted.{IsSearchInRange};
ghost use Rattle.ses_units.specs.Point.{point_of, points_of};
ghost use Rattle.ses_units.specs.Refusal.{IsBroken, first_refusal, refusal_of};
ghost use Rattle.ses_units.specs.Lane.{IsLane, PartsAt, with_point, without_point, gain_standing, ChangesGain};

use crate::limits::POINTS;
use crate::point::Point;
use crate::refusal::{LaneRefusal, first_refusal};
use std::alloc::{AllocError, Global};
use std::marker::Model;
use thiserror::Error;

/// The points that a line of gains passes through. Contracts see their list.
#[derive(Debug, Drop)]
pub struct Lane {
    points: Vec<Point>,
}

/// A lane has 1,024 points at other places.
#[derive(Clone, Copy, Debug, PartialEq, Eq, Error)]
#[error("a lane has at most 1024 points")]
pub struct LaneFull;

/// A lane has no point at a place.
#[derive(Clone, Copy, Debug, PartialEq, Eq, Error)]
#[error("no point stands there")]
pub struct NoPoint;

impl Model for Lane {
    ghost use Rattle.std.specs.Prelude.{List, ◌≤◌, vec_capacity};
    ghost use Rattle.sound_model.specs.Lanes as sound;
    ghost use Rattle.ses_units.specs.Point.{points_of};
    ghost use Rattle.ses_units.specs.Lane.{IsLane};

    ghost Value = { List sound.Point };

    ghost view = { λ l. points_of l.points.items };

    ghost invariant = { λ l. IsLane (points_of l.points.items) × (1024 ≤ vec_capacity l.points) };
}

// The points with room for a lane. Each gain is read, so that its bound is known of the list.
fn with_room(alloc: Global, points: &[Point]) -> Result<Vec<Point>, AllocError>
    requires { length points.now ≤ 1024 }
    ensures items { IfOk result (λ room. room.items ≡ points.now) }
    ensures capacity { IfOk result (λ room. 1024 ≤ vec_capacity room) }
    ensures quiet { OnOk result (All (λ p. p.gain ≤ 262144) points.now) }
{
    let mut room = Vec::with_capacity(alloc, POINTS)?;
    for p in points {
        let _number = p.gain.value();
        room.push(*p).unwrap();
    }
    Ok(room)
}

// How many points stand before a place.
fn count_before(points: &[Point], place: u64) -> usize
    requires { IsLane (points_of points.now) }
    ensures bound { result ≤ length points.now }
    ensures before { AllWithin (λ p. p.at < place) points.now 0 result }
    ensures after { AllWithin (λ p. place ≤ p.at) points.now result (length points.now) }
{
    points.partition_point(|p| p.at < place)
}

// The index of the point at a place, or else the index that it would have.
fn index_of(points: &[Point], place: u64) -> Result<usize, usize>
    requires { IsLane (points_of points.now) }
    ensures bound { IsSearchInRange result (length points.now) }
    ensures found { IfOk result (λ i. PartsAt (points_of points.now) i (i + 1) place) }
    ensures stands { OnOk result (gain_standing (points_of points.now) place ≢ None) }
    ensures missing { IfErr result (λ i. PartsAt (points_of points.now) i i place) }
{
    let i = count_before(points, place);
    if i < points.len() && points[i].at == place {
        Ok(i)
    } else {
        Err(i)
    }
}

impl Lane {
    /// The lane of these points, at most 1,024 in rising place, each before place 2^40 (own).
    /// It takes the memory for 1,024, and wants it only for points that no rule refuses.
    pub fn new(alloc: Global, points: &[Point]) -> Result<Lane, LaneRefusal>
        ensures points { IfOk result (λ lane. lane ≡ points_of points.now) }
        ensures lane { IfOk result IsLane }
        ensures broken { IfErr result (IsBroken (points_of points.now)) }
        ensures refused { refusal_of result ≡ first_refusal (points_of points.now) }
    {
        if let Some(refusal) = first_refusal(points) {
            return Err(refusal);
        }
        let Ok(points) = with_room(alloc, points) else {
            return Err(LaneRefusal::NoMemory);
        };
        Ok(Lane { points })
    }

    /// The points, in rising place, in frames.
    pub fn points(&self) -> &[Point]
        ensures points { points_of result.now ≡ self.now }
        ensures lane { IsLane self.now }
    {
        self.points.as_slice()
    }

    /// Puts a point into the lane, over the one at its place, if one is there. It takes no memory.
    pub fn set(&mut self, p: Point) -> Result<(), LaneFull>
        requires { p.at < 2 ^ 40 }
        ensures points { OnOk result (self.new ≡ with_point self.old (point_of p)) }
        ensures gains { OnOk result (ChangesGain self.old self.new p.at (Some p.gain)) }
        ensures full { IsErr result ↔ (length (without_point self.old p.at) ≡ 1024) }
        ensures err { OnErr result (self.new ≡ self.old) }
    {
        // Read, so that its bound is known.
        let _number = p.gain.value();
        match index_of(&self.points, p.at) {
            Ok(i) => self.points[i] = p,
            Err(i) => {
                if self.points.len() == POINTS {
                    return Err(LaneFull);
                }
                self.points.insert(i, p).unwrap();
            }
        }
        Ok(())
    }

    /// Takes the point at a place, in frames, out of the lane. It takes no memory.
    pub fn unset(&mut self, at: u64) -> Result<(), NoPoint>
        ensures points { OnOk result (self.new ≡ without_point self.old at) }
        ensures gains { OnOk result (ChangesGain self.old self.new at None) }
        ensures absent { IsErr result ↔ (gain_standing self.old at ≡ None) }
        ensures err { OnErr result (self.new ≡ self.old) }
    {
        let Ok(i) = index_of(&self.points, at) else {
            return Err(NoPoint);
        };
        self.points.remove(i);
        Ok(())
    }
}
