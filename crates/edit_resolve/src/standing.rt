//! What stands at the places of routes: their channels, links and points.
ghost use Rattle.std.specs.Prelude.{◌≡◌, ◌<◌, length, slice_get};
ghost use Rattle.session_model.specs.Formed.{IsFormed};
ghost use Rattle.engine_model.specs.Commands.{narrows, closes, other_points, has_point, other_sends, has_send};

use crate::scans::{has_point_at, has_send_to, points_elsewhere, sends_elsewhere};
use session_model::{Route, Session};

fn route(s: &Session, place: u32) -> &Route
    requires { place < length s.now.routes.items }
    ensures { slice_get s.now.routes.items place ≡ Some result.now }
{
    &s.routes.as_slice()[place as usize]
}

/// Whether a route of two channels would feed one of one.
pub(crate) fn narrows(s: &Session, from: u32, to: u32) -> bool
    requires here { from < length s.now.routes.items }
    requires there { to < length s.now.routes.items }
    ensures { result ≡ narrows s.now from to }
{
    route(s, to).channels < route(s, from).channels
}

/// Whether a link from one route to another would close a cycle.
pub(crate) fn closes(s: &Session, from: u32, to: u32) -> bool
    requires formed { IsFormed s.now }
    requires here { from < length s.now.routes.items }
    requires there { to < length s.now.routes.items }
    ensures { result ≡ closes s.now from to }
{
    route_graph::closes(s, from, to)
}

/// How many points of a route's lane stand at other places.
pub(crate) fn other_points(s: &Session, of: u32, place: u64) -> usize
    requires { of < length s.now.routes.items }
    ensures { result ≡ other_points s.now of place }
{
    points_elsewhere(route(s, of).lane.points(), place)
}

/// Whether a point of a route's lane stands at a place.
pub(crate) fn has_point(s: &Session, of: u32, place: u64) -> bool
    requires { of < length s.now.routes.items }
    ensures { result ≡ has_point s.now of place }
{
    has_point_at(route(s, of).lane.points(), place)
}

/// How many sends of a route lead elsewhere.
pub(crate) fn other_sends(s: &Session, from: u32, to: u32) -> usize
    requires { from < length s.now.routes.items }
    ensures { result ≡ other_sends s.now from to }
{
    sends_elsewhere(route(s, from).sends.as_slice(), to)
}

/// Whether a send of a route leads to another.
pub(crate) fn has_send(s: &Session, from: u32, to: u32) -> bool
    requires { from < length s.now.routes.items }
    ensures { result ≡ has_send s.now from to }
{
    has_send_to(route(s, from).sends.as_slice(), to)
}
