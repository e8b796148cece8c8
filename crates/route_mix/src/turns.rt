//! One route's turn in a mix: it takes in what it was fed, and gives it on.
ghost use Rattle.std.specs.Prelude.{◌≡◌, ◌*◌, ◌^◌, ◌<◌, ◌≤◌, Bool, length, All};
ghost use Rattle.session_model.specs.Formed.{IsFormed};
ghost use Rattle.route_mix.specs.Blocks.{silence};
ghost use Rattle.route_mix.specs.Faders.{AreWithin};
ghost use Rattle.route_mix.specs.Feeds.{EachGoesOn, EachNear, HaveSizes, IsRouteOf};
ghost use Rattle.route_mix.specs.Turns.{IsGiven, taken};

use crate::faders::{Reach, fade};
use crate::feeds::pass_on;
use crate::opening::is_open;
use crate::sound::Sound;
use crate::sums::Sums;
use session_model::{Route, RouteKind, Session};

/// Takes in what a route was fed. A track has its own block.
pub(crate) fn take_in(route: &Route, sums: &Sums, input: &mut Sound)
    requires { length input.old ≡ length sums.now }
    ensures { input.new ≡ taken route.now sums.now input.old }
{
    match route.kind {
        RouteKind::Track(_) => {}
        RouteKind::Bus | RouteKind::Master => sums.give(input),
    }
}

/// Gives what a route has taken in: its post, and to the sums of all others what leads there. A
/// closed route and a silent one cost nothing.
pub(crate) fn give_on(
    s: &Session,
    solo: bool,
    route: &Route,
    places: &[u64],
    reach: Reach,
    zeros: &[i32],
    gains: &mut [u32],
    input: &Sound,
    post: &mut Sound,
    sums: &mut [Sums],
)
    requires formed { IsFormed s.now }
    requires route { IsRouteOf s.now route.now }
    requires places { length places.now ≡ s.now.block }
    requires reach { AreWithin places.now reach.first reach.last }
    requires near { All (λ x. x < 2 ^ 41) places.now }
    requires zeros { zeros.now ≡ silence (length gains.old) }
    requires gains { s.now.block * route.now.channels ≤ length gains.old }
    requires input { length input.now ≡ s.now.block * route.now.channels }
    requires post { length post.old ≡ s.now.block * route.now.channels }
    requires sizes { HaveSizes s.now sums.old }
    requires small { EachNear (2 ^ 47) sums.old }
    ensures given { IsGiven s.now solo route.now places.now input.now post.new
        sums.old sums.new }
    ensures post { length post.new ≡ length post.old }
    ensures gains { length gains.new ≡ length gains.old }
    ensures sizes { HaveSizes s.now sums.new }
    ensures small { EachGoesOn (9 * 2 ^ 35) sums.old sums.new }
{
    if !is_open(s, route, solo) {
        post.hush();
        return;
    }
    match input.heard() {
        None => post.hush(),
        Some(samples) => {
            fade(route, places, reach, samples, gains, post);
            pass_on(s, route, samples, post.shown(zeros), sums);
        }
    }
}
