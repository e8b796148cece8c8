//! The lane of a route: an array of positions and gains.
ghost use Rattle.std.specs.Prelude.{◌≡◌, IfOk, map, option_map};
ghost use Rattle.std.specs.List.{list_all};
ghost use Rattle.toml.specs.View.{view};
ghost use Rattle.session_walk.specs.Arrays as arrays;
ghost use Rattle.session_walk.specs.Fault.{Gives};
ghost use Rattle.session_walk.specs.Lane as spec;
ghost use Rattle.session_walk.specs.Section as section;
ghost use Rattle.session_walk.specs.Section.{section_of};

use crate::arrays::array;
use crate::fault::SessionFault;
use crate::section::{Section, holds};
use crate::values::in_range;
use ses_units::limits::{END, LOUDEST};
use ses_units::{Gain, Lane, LaneRefusal, Point};
use session_model::{Key, SessionRefusal};
use std::alloc::{AllocError, Global};
use toml::Value;

fn two_of(values: &[Value]) -> Option<(i64, i64)>
    ensures { result ≡ spec.two_of (map view values.now) }
{
    match values {
        [] => None,
        [_] => None,
        [at, gain] => {
            let at = at.as_integer()?;
            let gain = gain.as_integer()?;
            Some((at, gain))
        }
        [_, _, _, ..] => None,
    }
}

fn pair_of(value: &Value) -> Option<(i64, i64)>
    ensures { result ≡ spec.pair_of (view value.now) }
{
    let items = value.as_array()?;
    two_of(items.as_slice())
}

fn is_pair(value: &Value) -> bool
    ensures { result ≡ spec.is_pair (view value.now) }
{
    pair_of(value).is_some()
}

fn are_pairs(values: &[Value]) -> bool
    ensures { result ≡ list_all (λ v. spec.is_pair (view v)) values.now }
{
    values.iter().all(|value| is_pair(value))
}

// Refuses values of which one is no pair.
fn only_pairs(values: &[Value], refusal: SessionRefusal) -> Result<(), SessionRefusal>
    ensures { result ≡ section.holds (list_all spec.is_pair (map view values.now)) refusal }
{
    holds(are_pairs(values), refusal)
}

fn placed(at: i64, gain: i64) -> Option<Point>
    ensures { result ≡ spec.placed (at, gain) }
{
    let at = in_range(0, END - 1, at)?;
    let gain = in_range(0, u64::from(LOUDEST), gain)?;
    match Gain::new(gain as u32) {
        Ok(gain) => Some(Point { at, gain }),
        Err(_) => unreachable!(),
    }
}

fn point_of(value: &Value) -> Option<Point>
    ensures { result ≡ spec.point_of (view value.now) }
{
    let (at, gain) = pair_of(value)?;
    placed(at, gain)
}

// The points that the values are, where every one is in range.
fn each_point(alloc: Global, values: &[Value]) -> Result<Option<Vec<Point>>, AllocError>
    ensures { IfOk result (λ all. option_map (λ v. v.items) all
        ≡ arrays.each spec.point_of (map view values.now)) }
{
    let mut points = Vec::new(alloc);
    for value in values {
        let Some(point) = point_of(value) else {
            return Ok(None);
        };
        points.push(point)?;
    }
    Ok(Some(points))
}

// The lane of points, where no rule of lanes refuses them.
fn kept(alloc: Global, refusal: SessionRefusal, points: &[Point]) -> Result<Lane, SessionFault>
    ensures { Gives (spec.kept refusal points.now) result }
{
    match Lane::new(alloc, points) {
        Ok(lane) => Ok(lane),
        Err(LaneRefusal::NoMemory) => Err(SessionFault::NoMemory),
        Err(LaneRefusal::TooMany(_)) => Err(SessionFault::Refused(refusal)),
        Err(LaneRefusal::Far(_)) => Err(SessionFault::Refused(refusal)),
        Err(LaneRefusal::NotRising(_)) => Err(SessionFault::Refused(refusal)),
    }
}

/// The lane of a route, empty where the key is absent.
#[tactic(auto, unfolding(crate::specs::Lane::lane))]
pub(crate) fn lane(alloc: Global, part: Section<'_>) -> Result<Lane, SessionFault>
    ensures { Gives (spec.lane (section_of part.entry)) result }
{
    let values = array(part, Key::Lane)?;
    only_pairs(values, SessionRefusal::Kind(part.place, Key::Lane))?;
    let range = SessionRefusal::Range(part.place, Key::Lane);
    match each_point(alloc, values)? {
        Some(points) => kept(alloc, range, &points),
        None => Err(SessionFault::Refused(range)),
    }
}
