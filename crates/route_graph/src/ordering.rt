//! An order of a session's routes, or the first route that leads back to itself.
ghost use Rattle.std.specs.Prelude.{◌≡◌, IfOk};
ghost use Rattle.session_model.specs.Formed.{IsFormed};
ghost use Rattle.session_model.specs.Views.{routes_of};
ghost use Rattle.route_graph.specs.Cycles.{first_on_cycle};
ghost use Rattle.route_graph.specs.Order.{IsOrder, NamesCycle};

use crate::feeders::peeled;
use crate::list::{Order, listed};
use crate::reach::leads;
use crate::refusal::OrderRefusal;
use session_model::Session;
use std::alloc::Global;

// The first route that leads back to itself.
fn first_cycle(s: &Session) -> Option<u32>
    requires { IsFormed s.now }
    ensures { result ≡ first_on_cycle (routes_of s.now) }
{
    for r in 0..s.routes.len() as u32 {
        if leads(s, r, r) {
            return Some(r);
        }
    }
    None
}

/// An order of the routes of a session, or the first of them, in their order, that leads back to itself. Its session may
/// have a cycle.
pub fn order(alloc: Global, s: &Session) -> Result<Order, OrderRefusal>
    requires { IsFormed s.now }
    ensures order { IfOk result (IsOrder (routes_of s.now)) }
    ensures cycle { NamesCycle (first_on_cycle (routes_of s.now)) result }
{
    let places = peeled(s);
    if places.as_slice().len() == s.routes.len() {
        return listed(alloc, &places);
    }
    match first_cycle(s) {
        Some(r) => Err(OrderRefusal::Cycle(r)),
        None => unreachable!(),
    }
}
