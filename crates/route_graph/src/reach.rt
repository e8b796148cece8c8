//! Which routes a route leads to by one or more links.
ghost use Rattle.std.specs.Prelude.{◌≡◌, ◌↔◌, ◌<◌, ◌||◌, ℕ, length, IsTrue};
ghost use Rattle.sound_model.specs.Routes.{Reaches, feeds};
ghost use Rattle.session_model.specs.Formed.{IsFormed};
ghost use Rattle.session_model.specs.Views.{routes_of};
ghost use Rattle.route_graph.specs.Cycles.{Closes};
ghost use Rattle.route_graph.specs.Places.{stands, AreOnce, StartsWith};
ghost use Rattle.route_graph.specs.Walks.{plain, LinksBelow};

use crate::places::Places;
use session_model::{Route, Session};

// Adds all that the route leads to by one link.
fn spread(route: &Route, found: &mut Places)
    requires { LinksBelow 64 route.now }
    ensures starts { StartsWith found.new found.old }
    ensures once { AreOnce found.old → AreOnce found.new }
    ensures stand { (t : ℕ) → stands found.new t
        ≡ (stands found.old t || feeds (plain route.now) t) }
{
    if let Some(to) = route.target {
        found.note(to);
    }
    let sends = route.sends.as_slice();
    for send in sends {
        found.note(send.to);
    }
}

// All routes that the route leads to by one or more links.
fn reached(s: &Session, from: u32) -> Places
    requires formed { IsFormed s.now }
    requires here { from < length s.now.routes.items }
    ensures { (t : ℕ) → IsTrue (stands result t) ↔ Reaches (routes_of s.now) from t }
{
    let routes = s.routes.as_slice();
    let mut found = Places::new();
    spread(&routes[from as usize], &mut found);
    for turn in 0..routes.len() {
        match found.get(turn) {
            Some(place) => spread(&routes[place as usize], &mut found),
            None => return found,
        }
    }
    found
}

/// Whether a route leads to another by one or more links.
pub(crate) fn leads(s: &Session, from: u32, to: u32) -> bool
    requires formed { IsFormed s.now }
    requires from_here { from < length s.now.routes.items }
    requires to_here { to < length s.now.routes.items }
    ensures { IsTrue result ↔ Reaches (routes_of s.now) from to }
{
    reached(s, from).has(to)
}

/// Whether a link from one route to another would close a cycle, or closes one if it is there. It takes no memory,
/// and the session may have a cycle.
pub fn closes(s: &Session, from: u32, to: u32) -> bool
    requires formed { IsFormed s.now }
    requires from_here { from < length s.now.routes.items }
    requires to_here { to < length s.now.routes.items }
    ensures { IsTrue result ↔ Closes (routes_of s.now) from to }
{
    from == to || leads(s, to, from)
}
