//! What a route gives, through its output and its sends, to the sums of those that it leads to.
ghost use Rattle.std.specs.Prelude.{◌≡◌, ◌≢◌, ℕ, ◌+◌, ◌*◌, ◌^◌, ◌≤◌, [], ◌∷◌, length, slice_index_or};
ghost use Rattle.session_model.specs.Formed.{IsFormed, MayFeed, channels_at};
ghost use Rattle.mix_kernel.specs.Bounds.{AllNear, GoesOn};
ghost use Rattle.route_mix.specs.Blocks.{AreFew};
ghost use Rattle.route_mix.specs.Feeds.{EachGoesOn, EachNear, HaveSizes, IsFed, IsGivenOn, IsRouteOf, all_out, put_out, sent_out};

use crate::sums::Sums;
use ses_units::Gain;
use session_model::{Route, SendLink, Session};

// Feeds sums what a route gives of samples at a gain. One channel goes into two through the route's gains left and right.
fn give(route: &Route, channels: u16, samples: &[i32], gain: Gain, sums: &mut Sums)
    requires own { AreFew route.now.channels }
    requires into { AreFew channels }
    requires wide { route.now.channels ≤ channels }
    requires long { length samples.now * channels ≡ length sums.old * route.now.channels }
    requires near { AllNear (2 ^ 48) sums.old }
    ensures fed { IsFed route.now channels gain samples.now sums.old sums.new }
    ensures long { length sums.new ≡ length sums.old }
    ensures near { GoesOn (2 ^ 35) sums.old sums.new }
{
    if route.channels == channels {
        sums.add(samples, gain);
    } else {
        sums.add_sides(samples, gain, route.left, route.right);
    }
}

// Feeds the sums of the route at a place what another gives of samples at a gain.
fn give_to(s: &Session, route: &Route, to: u32, samples: &[i32], gain: Gain, sums: &mut [Sums])
    requires formed { IsFormed s.now }
    requires leads { MayFeed s.now route.now to }
    requires own { AreFew route.now.channels }
    requires samples { length samples.now ≡ s.now.block * route.now.channels }
    requires sizes { HaveSizes s.now sums.old }
    requires near { AllNear (2 ^ 48) (slice_index_or sums.old to []) }
    ensures fed { IsFed route.now (channels_at s.now to) gain samples.now
        (slice_index_or sums.old to []) (slice_index_or sums.new to []) }
    ensures others { (r : ℕ) → r ≢ to
        → slice_index_or sums.new r [] ≡ slice_index_or sums.old r [] }
    ensures sizes { HaveSizes s.now sums.new }
    ensures near { GoesOn (2 ^ 35) (slice_index_or sums.old to []) (slice_index_or sums.new to []) }
{
    let channels = s.routes.as_slice()[to as usize].channels;
    give(route, channels, samples, gain, &mut sums[to as usize]);
}

// Feeds the route that the output of another leads to.
fn put_out(s: &Session, route: &Route, input: &[i32], post: &[i32], sums: &mut [Sums])
    requires formed { IsFormed s.now }
    requires route { IsRouteOf s.now route.now }
    requires post { length post.now ≡ s.now.block * route.now.channels }
    requires sizes { HaveSizes s.now sums.old }
    requires near { EachNear (2 ^ 47) sums.old }
    ensures given { IsGivenOn s.now route.now input.now post.now (put_out s.now route.now)
        sums.old sums.new }
    ensures sizes { HaveSizes s.now sums.new }
    ensures near { EachGoesOn (2 ^ 35) sums.old sums.new }
{
    if let Some(to) = route.target {
        give_to(s, route, to, post, Gain::unity(), sums);
    }
}

// Feeds the route that a send of another leads to.
fn send_out(
    s: &Session,
    route: &Route,
    send: &SendLink,
    input: &[i32],
    post: &[i32],
    sums: &mut [Sums],
)
    requires formed { IsFormed s.now }
    requires route { IsRouteOf s.now route.now }
    requires leads { MayFeed s.now route.now send.now.to }
    requires input { length input.now ≡ s.now.block * route.now.channels }
    requires post { length post.now ≡ s.now.block * route.now.channels }
    requires sizes { HaveSizes s.now sums.old }
    requires near { EachNear (2 ^ 48) sums.old }
    ensures given { IsGivenOn s.now route.now input.now post.now
        (sent_out s.now route.now (send.now ∷ [])) sums.old sums.new }
    ensures sizes { HaveSizes s.now sums.new }
    ensures near { EachGoesOn (2 ^ 35) sums.old sums.new }
{
    if send.pre {
        give_to(s, route, send.to, input, send.gain, sums);
    } else {
        give_to(s, route, send.to, post, send.gain, sums);
    }
}

/// Feeds the sums of all routes what one of them gives, of its blocks before and after the fader.
pub(crate) fn pass_on(s: &Session, route: &Route, input: &[i32], post: &[i32], sums: &mut [Sums])
    requires formed { IsFormed s.now }
    requires route { IsRouteOf s.now route.now }
    requires input { length input.now ≡ s.now.block * route.now.channels }
    requires post { length post.now ≡ s.now.block * route.now.channels }
    requires sizes { HaveSizes s.now sums.old }
    requires near { EachNear (2 ^ 47) sums.old }
    ensures given { IsGivenOn s.now route.now input.now post.now (all_out s.now route.now)
        sums.old sums.new }
    ensures sizes { HaveSizes s.now sums.new }
    ensures near { EachGoesOn (9 * 2 ^ 35) sums.old sums.new }
{
    put_out(s, route, input, post, sums);
    let sends = route.sends.as_slice();
    for send in sends {
        send_out(s, route, send, input, post, sums);
    }
}
