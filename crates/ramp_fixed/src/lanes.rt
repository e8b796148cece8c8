//! The gains of a route at places: its fader, or its lane, walked along.
ghost use Rattle.std.specs.Prelude.{◌≡◌, ◌^◌, ◌<◌, ◌≤◌, length, map, replicate, All};
ghost use Rattle.sound_model.specs.Lanes.{gain_at, lane_value};
ghost use Rattle.ses_units.specs.Lane.{IsLane};
ghost use Rattle.ses_units.specs.Mode.{mode_of};
ghost use Rattle.ses_units.specs.Point.{points_of};

use crate::walk::Walk;
use ses_units::{Gain, Lane, Mode, Point};

/// Writes the gain of a route at each place, by its mode, fader and lane. Places may jump: where one
/// leaves the lane's piece of the place before it, its piece is looked for anew. Each gain is at most
/// 262,144.
pub fn lane_block(lane: &Lane, fader: Gain, mode: Mode, places: &[u64], out: &mut [u32])
    requires count { length places.now ≡ length out.old }
    requires near { All (λ x. x < 2 ^ 41) places.now }
    ensures gains { out.new ≡ map (gain_at (mode_of mode) fader lane.now) places.now }
    ensures quiet { All (λ g. g ≤ 262144) out.new }
{
    match mode {
        Mode::Manual => fill_even(fader.value(), out),
        Mode::Play => walk_along(lane.points(), fader.value(), places, out),
    }
}

fn fill_even(gain: u32, out: &mut [u32])
    ensures { out.new ≡ replicate (length out.old) gain }
{
    out.fill(gain);
}

fn walk_along(points: &[Point], fader: u32, places: &[u64], out: &mut [u32])
    requires lane { IsLane (points_of points.now) }
    requires fader { fader ≤ 262144 }
    requires count { length places.now ≡ length out.old }
    requires near { All (λ x. x < 2 ^ 41) places.now }
    ensures gains { out.new ≡ map (lane_value fader (points_of points.now)) places.now }
    ensures quiet { All (λ g. g ≤ 262144) out.new }
{
    let mut walk = Walk::to(points, fader, 0);
    for (i, place) in places.iter().enumerate() {
        walk = walk.on(points, fader, *place);
        out[i] = walk.gain(points, fader);
    }
}
