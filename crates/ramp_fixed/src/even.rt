//! Whether a route has one gain at all places of a block, and which.
ghost use Rattle.std.specs.Prelude.{◌+◌, ◌^◌, ◌<◌, ◌≤◌, ◌↔◌, length, IsTrue, IsSome, IfSome};
ghost use Rattle.std.specs.List.{AllWithin};
ghost use Rattle.sound_model.specs.Lanes.{Play};
ghost use Rattle.ses_units.specs.Lane.{IsLane};
ghost use Rattle.ses_units.specs.Mode.{mode_of};
ghost use Rattle.ses_units.specs.Point.{points_of};
ghost use Rattle.ramp_fixed.specs.Even.{AreFlat, IsEven, StaysAt};

use crate::piece::count_through;
use ses_units::{Gain, Lane, Mode, Point};

// Each point of a lane stands before this place.
const END: u64 = 1 << 40;

/// The one gain of a route at all places from a first to a last: its fader, or that of its lane,
/// where each line that is met on the way is flat.
pub fn even_gain(lane: &Lane, fader: Gain, mode: Mode, first: u64, last: u64) -> Option<Gain>
    ensures gain { IfSome result (StaysAt (mode_of mode) fader lane.now first last) }
    ensures even { IsSome result ↔ IsEven (mode_of mode) lane.now first last }
{
    match mode {
        Mode::Manual => Some(fader),
        Mode::Play => even_play(lane.points(), fader, first, last),
    }
}

fn even_play(points: &[Point], fader: Gain, first: u64, last: u64) -> Option<Gain>
    requires { IsLane (points_of points.now) }
    ensures gain { IfSome result (StaysAt Play fader (points_of points.now) first last) }
    ensures even { IsSome result ↔ IsEven Play (points_of points.now) first last }
{
    if points.is_empty() {
        return Some(fader);
    }
    let from = standing(points, first);
    if are_flat(points, from, last) {
        Some(points[from].gain)
    } else {
        None
    }
}

// The index of the last point at a place or before it, or else of the first point.
fn standing(points: &[Point], place: u64) -> usize
    requires lane { IsLane (points_of points.now) }
    requires some { 0 < length points.now }
    ensures bound { result < length points.now }
    ensures through { (0 < result) → AllWithin (λ p. p.at ≤ place) points.now 0 (result + 1) }
    ensures after { AllWithin (λ p. place < p.at) points.now (result + 1) (length points.now) }
{
    count_through(points, place.min(END)).saturating_sub(1)
}

// Whether the lines from a point on are flat, as far as they begin at the last place or before it.
fn are_flat(points: &[Point], from: usize, last: u64) -> bool
    requires lane { IsLane (points_of points.now) }
    requires bound { from < length points.now }
    ensures { IsTrue result ↔ AreFlat (points_of points.now) from last }
{
    for i in from + 1..points.len() {
        if last < points[i - 1].at {
            return true;
        }
        if points[i - 1].gain.value() != points[i].gain.value() {
            return false;
        }
    }
    true
}
