//! A block through a route's fader or its lane.
ghost use Rattle.std.specs.Prelude.{◌≡◌, ◌*◌, ◌^◌, ◌<◌, ◌≤◌, length, All};
ghost use Rattle.mix_kernel.specs.Blocks.{spread};
ghost use Rattle.mix_kernel.specs.Bounds.{AllAtMost};
ghost use Rattle.route_mix.specs.Blocks.{AreFew};
ghost use Rattle.route_mix.specs.Faders.{AreWithin, IsFaded, frame_gain};

use crate::sound::Sound;
use mix_kernel::spread;
use ramp_fixed::{even_gain, lane_block};
use session_model::Route;

/// How far the places of a block reach: the least of them, and the greatest.
#[derive(Clone, Copy)]
pub(crate) struct Reach {
    pub(crate) first: u64,
    pub(crate) last: u64,
}

/// How far places reach.
pub(crate) fn reach_of(places: &[u64]) -> Reach
    ensures { AreWithin places.now result.first result.last }
{
    let mut reach = Reach {
        first: u64::MAX,
        last: 0,
    };
    for place in places {
        reach.first = reach.first.min(*place);
        reach.last = reach.last.max(*place);
    }
    reach
}

// The gains of a route at places, each at each of its channels.
fn lane_gains(route: &Route, places: &[u64], gains: &mut [u32])
    requires channels { AreFew route.now.channels }
    requires long { length gains.old ≡ length places.now * route.now.channels }
    requires near { All (λ x. x < 2 ^ 41) places.now }
    ensures gains { gains.new ≡ spread (frame_gain route.now places.now) route.now.channels
        (length gains.old) }
    ensures quiet { AllAtMost 262144 gains.new }
{
    lane_block(
        &route.lane,
        route.fader,
        route.mode,
        places,
        &mut gains[..places.len()],
    );
    spread(gains, route.channels);
}

/// Makes a block of another, through the route's fader or its lane.
pub(crate) fn fade(
    route: &Route,
    places: &[u64],
    reach: Reach,
    samples: &[i32],
    gains: &mut [u32],
    post: &mut Sound,
)
    requires channels { AreFew route.now.channels }
    requires samples { length samples.now ≡ length places.now * route.now.channels }
    requires gains { length samples.now ≤ length gains.old }
    requires post { length post.old ≡ length samples.now }
    requires reach { AreWithin places.now reach.first reach.last }
    requires near { All (λ x. x < 2 ^ 41) places.now }
    ensures faded { IsFaded route.now places.now samples.now post.new }
    ensures room { length gains.new ≡ length gains.old }
    ensures long { length post.new ≡ length post.old }
{
    match even_gain(
        &route.lane,
        route.fader,
        route.mode,
        reach.first,
        reach.last,
    ) {
        Some(gain) => post.scale(samples, gain),
        None => {
            let gains = &mut gains[..samples.len()];
            lane_gains(route, places, gains);
            post.scale_each(samples, gains);
        }
    }
}
