//! A mix: the routes take their turns in an order in which each comes after all that feed it.
ghost use Rattle.std.specs.Prelude.{◌≡◌, ℕ, ◌*◌, ◌^◌, ◌<◌, [], length, slice_index_or, All};
ghost use Rattle.session_model.specs.Valid.{IsValid};
ghost use Rattle.session_model.specs.Views.{routes_of};
ghost use Rattle.route_graph.specs.Order.{IsOrder};
ghost use Rattle.route_mix.specs.Blocks.{silence};
ghost use Rattle.route_mix.specs.Desks.{route_blocks, input_at, post_at};
ghost use Rattle.route_mix.specs.Feeds.{HaveSizes};

use crate::faders::reach_of;
use crate::opening::any_solo;
use crate::sound::Sound;
use crate::sums::Sums;
use crate::turns::{give_on, take_in};
use mix_laws::{along_goes_on, order_mixes, tracks_take_their_own};
use session_model::Session;

// Nothing was fed to any route.
fn clear(sums: &mut [Sums])
    ensures { (r : ℕ) → slice_index_or sums.new r []
        ≡ silence (length (slice_index_or sums.old r [])) }
{
    for sum in sums.iter_mut() {
        sum.clear();
    }
}

/// Mixes a block of all routes.
pub(crate) fn mix_all(
    s: &Session,
    order: &[u32],
    places: &[u64],
    zeros: &[i32],
    gains: &mut [u32],
    inputs: &mut [Sound],
    posts: &mut [Sound],
    sums: &mut [Sums],
)
    requires valid { IsValid s.now }
    requires order { IsOrder (routes_of s.now) order.now }
    requires places { length places.now ≡ s.now.block }
    requires near { All (λ x. x < 2 ^ 41) places.now }
    requires zeros { zeros.now ≡ silence (length gains.old) }
    requires gains { length gains.old ≡ 2 * s.now.block }
    requires inputs { HaveSizes s.now inputs.old }
    requires posts { HaveSizes s.now posts.old }
    requires sums { HaveSizes s.now sums.old }
    ensures inputs { inputs.new ≡ route_blocks s.now
        (λ r i c. input_at s.now places.now inputs.old i r c) }
    ensures posts { posts.new ≡ route_blocks s.now
        (λ r i c. post_at s.now places.now inputs.old i r c) }
    ensures sums { HaveSizes s.now sums.new }
    ensures gains { length gains.new ≡ length gains.old }
{
    // The laws that the sums are proved by.
    order_mixes();
    along_goes_on();
    tracks_take_their_own();
    clear(sums);
    let solo = any_solo(s);
    let reach = reach_of(places);
    for r in order {
        let r = *r as usize;
        let route = &s.routes.as_slice()[r];
        take_in(route, &sums[r], &mut inputs[r]);
        give_on(
            s,
            solo,
            route,
            places,
            reach,
            zeros,
            gains,
            &inputs[r],
            &mut posts[r],
            sums,
        );
    }
}
