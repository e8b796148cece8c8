//! The routes of a session with feeders first: a route is placed once all that feed it are.
ghost use Rattle.std.specs.Prelude.{◌≡◌, ◌<◌, ◌≤◌, ◌+◌, ◌-◌, ◌==◌, ℕ, [], length, slice_get, slice_set, slice_index, Some, IfOk, All};
ghost use Rattle.session_model.specs.Formed.{IsFormed};
ghost use Rattle.session_model.specs.Views.{routes_of};
ghost use Rattle.route_graph.specs.Places.{StartsWith};
ghost use Rattle.route_graph.specs.Walks.{plain, ways, waiting, LinksBelow, IsSettled, IsPeeled};

use crate::places::Places;
use session_model::{Route, Session};

// Counts the links of a route at the routes that they lead to.
fn count_links(route: &Route, counts: &mut [u32])
    requires low { LinksBelow (length counts.old) route.now }
    requires few { length route.now.sends.items ≤ 8 }
    requires small { (t : ℕ) → t < length counts.old → slice_index counts.old t ≤ 1000 }
    ensures { (t : ℕ) → t < length counts.old → slice_index counts.new t
        ≡ slice_index counts.old t + ways (plain route.now) t }
{
    if let Some(to) = route.target {
        counts[to as usize] += 1;
    }
    let sends = route.sends.as_slice();
    for send in sends {
        counts[send.to as usize] += 1;
    }
}

fn clear(counts: &mut [u32])
    ensures { (t : ℕ) → t < length counts.old → slice_index counts.new t ≡ 0 }
{
    for count in counts.iter_mut() {
        *count = 0;
    }
}

// Counts the links of all routes at the routes that they lead to.
fn count_all(s: &Session, counts: &mut [u32])
    requires formed { IsFormed s.now }
    requires long { length counts.old ≡ length s.now.routes.items }
    ensures { (t : ℕ) → t < length counts.old → slice_index counts.new t
        ≡ waiting 0 (routes_of s.now) [] t }
{
    clear(counts);
    let routes = s.routes.as_slice();
    for route in routes {
        count_links(route, counts);
    }
}

// The routes that no link leads to.
fn unfed(counts: &[u32]) -> Places
    requires { length counts.now ≤ 64 }
    ensures { IsSettled counts.now result }
{
    let mut places = Places::new();
    for (place, count) in counts.iter().enumerate() {
        if *count == 0 {
            places.push(place as u32);
        }
    }
    places
}

// Takes one link away, and places the route that it led to where that was the last one.
fn unlink(to: u32, counts: &mut [u32], places: &mut Places)
    requires few { length counts.old ≤ 64 }
    requires here { to < length counts.old }
    requires linked { 0 < slice_index counts.old to }
    requires settled { IsSettled counts.old places.old }
    ensures counts { counts.new ≡ slice_set counts.old to (slice_index counts.old to - 1) }
    ensures settled { IsSettled counts.new places.new }
    ensures starts { StartsWith places.new places.old }
{
    let at = to as usize;
    counts[at] -= 1;
    if counts[at] == 0 {
        places.push(to);
    }
}

// Takes the links of a route away.
fn release(route: &Route, counts: &mut [u32], places: &mut Places)
    requires few { length counts.old ≤ 64 }
    requires low { LinksBelow (length counts.old) route.now }
    requires linked { (t : ℕ) → t < length counts.old
        → ways (plain route.now) t ≤ slice_index counts.old t }
    requires settled { IsSettled counts.old places.old }
    ensures counts { (t : ℕ) → t < length counts.old → slice_index counts.new t
        + ways (plain route.now) t ≡ slice_index counts.old t }
    ensures settled { IsSettled counts.new places.new }
    ensures starts { StartsWith places.new places.old }
{
    if let Some(to) = route.target {
        unlink(to, counts, places);
    }
    let sends = route.sends.as_slice();
    for send in sends {
        unlink(send.to, counts, places);
    }
}

/// The routes with feeders first, as far as no cycle stands before them.
pub(crate) fn peeled(s: &Session) -> Places
    requires { IsFormed s.now }
    ensures { IsPeeled (routes_of s.now) result }
{
    let routes = s.routes.as_slice();
    let mut room = [0; 64];
    let counts = &mut room[..routes.len()];
    count_all(s, counts);
    let mut places = unfed(counts);
    for turn in 0..routes.len() {
        match places.get(turn) {
            Some(place) => release(&routes[place as usize], counts, &mut places),
            None => return places,
        }
    }
    places
}
