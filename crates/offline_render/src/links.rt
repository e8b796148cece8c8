//! What a route gives to those that it leads to, on one channel of the master.
ghost use Rattle.std.specs.Prelude.{◌≡◌, ℕ, ◌+ℤ◌, ◌*◌, ◌^◌, ◌<◌, ◌≤◌, pos, length, slice_set, slice_index_or, All};
ghost use Rattle.sound_model.specs.Numbers as numbers;
ghost use Rattle.sound_model.specs.Routes as sound;
ghost use Rattle.session_model.specs.Formed.{channels_at};
ghost use Rattle.session_model.specs.Views.{send_of};
ghost use Rattle.mix_kernel.specs.Bounds.{IsNear, AllNear, GoesOn};
ghost use Rattle.route_graph.specs.Walks.{plain, LinksBelow};
ghost use Rattle.offline_render.specs.Links.{own, taken, given_at, sent_at, put_at, gives_at, AreGiven};

use crate::routes::Taps;
use ses_units::{Gain, scale};
use session_model::{Route, SendLink, Session};

// A value scaled by a gain, which takes it at most four times as far from zero.
fn scaled(value: i64, gain: Gain) -> i64
    requires near { IsNear (2 ^ 44) value }
    ensures value { result ≡ numbers.scale value gain }
    ensures near { (n : ℕ) → IsNear n value → IsNear (4 * n) result }
{
    // Read, so that its bound is known.
    let _number = gain.value();
    scale(value, gain)
}

// What a route gives to a route with so many channels, of the value that it has for channel c of
// the master.
fn given(q: &Route, channels: u16, c: usize, value: i64) -> i64
    requires near { IsNear (2 ^ 33) value }
    ensures value { result ≡ sound.given (plain q.now) channels (own channels c) (λ k. value) }
    ensures near { IsNear (2 ^ 35) result }
{
    if q.channels == 1 && channels == 2 {
        scaled(value, if c == 0 { q.left } else { q.right })
    } else {
        value
    }
}

// What a send takes of a route, at the send's gain.
fn taken(link: &SendLink, taps: Taps) -> i64
    ensures value { result ≡ taken taps (send_of link.now) }
    ensures near { IsNear (2 ^ 33) result }
{
    let value = if link.pre { taps.before } else { taps.behind };
    scaled(i64::from(value), link.gain)
}

// Adds what a route gives to the sum of the route at place `to`.
fn add(s: &Session, q: &Route, to: u32, c: usize, value: i64, sums: &mut [i64])
    requires there { to < length s.now.routes.items }
    requires room { length s.now.routes.items ≤ length sums.old }
    requires value { IsNear (2 ^ 33) value }
    requires near { AllNear (2 ^ 50) sums.old }
    ensures sums { sums.new ≡ slice_set sums.old to (slice_index_or sums.old to (pos 0)
        +ℤ given_at s.now c (plain q.now) to value) }
    ensures near { GoesOn (2 ^ 35) sums.old sums.new }
{
    let channels = s.routes.as_slice()[to as usize].channels;
    sums[to as usize] += given(q, channels, c, value);
}

// Adds what a route gives through its sends to the sums of the routes that they lead to.
fn send(s: &Session, q: &Route, c: usize, taps: Taps, sums: &mut [i64])
    requires low { LinksBelow (length s.now.routes.items) q.now }
    requires few { length q.now.sends.items ≤ 8 }
    requires room { length s.now.routes.items ≤ length sums.old }
    requires near { AllNear (2 ^ 49) sums.old }
    ensures sums { AreGiven s.now (λ r. sent_at s.now c (plain q.now) r taps
        (plain q.now).sends) sums.old sums.new }
    ensures near { GoesOn (8 * 2 ^ 35) sums.old sums.new }
{
    let sends = q.sends.as_slice();
    for link in sends {
        add(s, q, link.to, c, taken(link, taps), sums);
    }
}

// Adds what a route gives through its output to the sum of the route that it leads to.
fn put_out(s: &Session, q: &Route, c: usize, taps: Taps, sums: &mut [i64])
    requires low { LinksBelow (length s.now.routes.items) q.now }
    requires room { length s.now.routes.items ≤ length sums.old }
    requires near { AllNear (2 ^ 48) sums.old }
    ensures sums { AreGiven s.now (λ r. put_at s.now c (plain q.now) r taps) sums.old sums.new }
    ensures near { GoesOn (2 ^ 35) sums.old sums.new }
{
    if let Some(to) = q.target {
        add(s, q, to, c, i64::from(taps.behind), sums);
    }
}

/// Adds what a route gives to the sums of the routes that it leads to.
pub(crate) fn feed(s: &Session, q: &Route, c: usize, taps: Taps, sums: &mut [i64])
    requires low { LinksBelow (length s.now.routes.items) q.now }
    requires few { length q.now.sends.items ≤ 8 }
    requires room { length s.now.routes.items ≤ length sums.old }
    requires near { AllNear (2 ^ 48) sums.old }
    ensures sums { AreGiven s.now (λ r. gives_at s.now c (plain q.now) r taps) sums.old sums.new }
    ensures near { GoesOn (9 * 2 ^ 35) sums.old sums.new }
{
    put_out(s, q, c, taps, sums);
    send(s, q, c, taps, sums);
}
