//! The master on one channel: a walk along an order of the routes, on which each route adds what it
//! gives to the sums of those that it leads to. A route with one channel is heard by that, one with
//! two by the master's.
ghost use Rattle.std.specs.Prelude.{◌≡◌, ◌+◌, ◌*◌, ◌^◌, ◌<◌, [], length, take, IfSome};
ghost use Rattle.sound_model.specs.Routes as sound;
ghost use Rattle.session_model.specs.Valid.{IsValid};
ghost use Rattle.session_model.specs.Views.{routes_of, track_number};
ghost use Rattle.route_graph.specs.Order.{IsOrder};
ghost use Rattle.engine_model.specs.Played.{master_channels};
ghost use Rattle.offline_render.specs.Frame.{samples};
ghost use Rattle.offline_render.specs.Links.{own};
ghost use Rattle.offline_render.specs.Walk.{taken_in, AreFed};

use crate::links::feed;
use crate::routes::{any_solo, tapped};
use mix_laws::{
    along_goes_on, links_lead_wide, order_is_whole, order_mixes, tracks_take_their_own,
};
use route_graph::Order;
use ses_units::clip;
use session_model::{Route, RouteKind, Session};
use sound_laws::only_links_feed;

// What a route takes in: a track's own sample, or the clip of the sum of what it was given.
fn taken_in(q: &Route, tracks: &[i32], c: usize, sum: i64) -> i32
    requires side { c < 2 }
    requires tracks { IfSome (track_number q.now.kind) (λ t. 2 * t + 1 < length tracks.now) }
    ensures { result ≡ taken_in tracks.now (own q.now.channels c) sum (track_number q.now.kind) }
{
    match q.kind {
        RouteKind::Track(t) => {
            let own = if q.channels == 1 { 0 } else { c };
            tracks[2 * t as usize + own]
        }
        RouteKind::Bus | RouteKind::Master => clip(sum),
    }
}

// Takes the route at place i of the order: its sum is whole by then.
fn step(
    s: &Session,
    order: &[u32],
    i: usize,
    tracks: &[i32],
    place: u64,
    c: usize,
    solo: bool,
    sums: &mut [i64],
)
    requires valid { IsValid s.now }
    requires order { IsOrder (routes_of s.now) order.now }
    requires there { i < length order.now }
    requires tracks { length tracks.now ≡ 2 * length s.now.tracks.items }
    requires near { place < 2 ^ 41 }
    requires side { c < 2 }
    requires solo { solo ≡ sound.any_solo (routes_of s.now) }
    requires fed { AreFed s.now tracks.now place c (take i order.now) sums.old }
    ensures { AreFed s.now tracks.now place c (take (i + 1) order.now) sums.new }
{
    // Their contracts are the laws that the sums are proved by.
    along_goes_on();
    order_mixes();
    tracks_take_their_own();
    links_lead_wide();
    only_links_feed();
    let r = order[i] as usize;
    let q = &s.routes.as_slice()[r];
    let input = taken_in(q, tracks, c, sums[r]);
    feed(s, q, c, tapped(s, solo, q, place, input), sums);
}

// The sums when all routes of the order are done.
fn walk(s: &Session, order: &[u32], tracks: &[i32], place: u64, c: usize, sums: &mut [i64])
    requires valid { IsValid s.now }
    requires order { IsOrder (routes_of s.now) order.now }
    requires tracks { length tracks.now ≡ 2 * length s.now.tracks.items }
    requires near { place < 2 ^ 41 }
    requires side { c < 2 }
    requires fed { AreFed s.now tracks.now place c [] sums.old }
    ensures { AreFed s.now tracks.now place c order.now sums.new }
{
    let solo = any_solo(s);
    for i in 0..order.len() {
        step(s, order, i, tracks, place, c, solo, sums);
    }
}

/// The sample of the master on one of its channels, where the tracks have these samples.
pub(crate) fn master(s: &Session, order: &Order, tracks: &[i32], place: u64, c: usize) -> i32
    requires valid { IsValid s.now }
    requires order { IsOrder (routes_of s.now) order.now }
    requires tracks { length tracks.now ≡ 2 * length s.now.tracks.items }
    requires near { place < 2 ^ 41 }
    requires channel { c < master_channels s.now }
    ensures { result ≡ sound.master_sample (routes_of s.now) (samples tracks.now) place c }
{
    // Its contract is the law that the last sum is proved by.
    order_is_whole();
    let mut sums = [0; 64];
    walk(s, order.routes(), tracks, place, c, &mut sums);
    let last = s.routes.len() - 1;
    let q = &s.routes.as_slice()[last];
    tapped(s, any_solo(s), q, place, clip(sums[last])).behind
}
