//! Graphs with their orders, first cycles and closing links, found by hand.
ghost use Rattle.session_model.specs.Formed.{IsFormed};

mod formed;
mod graphs;
mod rows;

use crate::row::row_holds;
use graphs::{Bus, graph};
use route_graph::{Order, OrderRefusal, closes, none_is_found_without_cycle, order};
use rows::{Found, LINE, LINE_BACK, ROWS, Row};
use session_model::Session;
use std::alloc::Global;

// Whether each link closes a cycle, as it says; false where one of the two is no route.
fn closings(s: &Session, links: &[(u32, u32, bool)]) -> bool
    requires { IsFormed s.now }
{
    let many = s.routes.len();
    for (from, to, closed) in links {
        if *from as usize >= many || *to as usize >= many || closes(s, *from, *to) != *closed {
            return false;
        }
    }
    true
}

fn is_order(order: &Order, found: &Found) -> bool {
    let routes = order.routes();
    match *found {
        Found::Order(wanted) => routes == wanted,
        Found::Between(many, first, last) => {
            routes.len() == many
                && routes.first().copied() == Some(first)
                && routes.last().copied() == Some(last)
        }
        Found::Cycle(_) => false,
        Found::Any => true,
    }
}

// Whether the order or the first route on a cycle is this.
fn finds(alloc: Global, s: &Session, found: &Found) -> bool
    requires { IsFormed s.now }
{
    match order(alloc, s) {
        Ok(order) => is_order(&order, found),
        Err(OrderRefusal::Cycle(route)) => match *found {
            Found::Cycle(wanted) => route == wanted,
            Found::Any => true,
            _ => false,
        },
        Err(OrderRefusal::NoMemory) => false,
    }
}

fn is_right(alloc: Global, row: &Row) -> bool {
    match graph(alloc, row.busses) {
        Some(session) => { finds(alloc, &session, &row.found) && closings(&session, row.links) }
        None => false,
    }
}

#[test]
fn each_graph_has_the_order_or_the_cycle_and_the_closing_links_found_by_hand(rt: HostRuntime) {
    for (at, row) in ROWS.iter().enumerate() {
        row_holds(&rt, at, is_right(rt.alloc(), row));
    }
}

// Whether the routes fall from 62 to 0, with the master behind.
fn falls(order: &Order) -> bool {
    let routes = order.routes();
    let mut right = routes.len() == 64 && routes.last().copied() == Some(63);
    for (k, place) in routes.iter().take(63).enumerate() {
        right = right && *place as usize == 62 - k;
    }
    right
}

// 63 busses, each into the one before it, and the first into the master.
fn falling() -> [Bus; 63] {
    let mut busses = [(63, None); 63];
    for i in 0..62_u32 {
        busses[i as usize + 1] = (i, None);
    }
    busses
}

fn order_of(alloc: Global, busses: &[Bus]) -> Option<Order> {
    let session = graph(alloc, busses)?;
    order(alloc, &session).ok()
}

#[test]
fn sixty_four_routes_stand_in_one_line(rt: HostRuntime) {
    let right = match order_of(rt.alloc(), &falling()) {
        Some(line) => falls(&line),
        None => false,
    };
    row_holds(&rt, 0, right);
}

// Whether an order, made one of that session, is this; false where that has a cycle or another number of routes.
fn renews(alloc: Global, line: &mut Order, to: &Session, wanted: &[u32]) -> bool
    requires { IsFormed to.now }
{
    let Ok(_fresh) = order(alloc, to) else {
        return false;
    };
    none_is_found_without_cycle();
    if line.routes().len() != to.routes.len() {
        return false;
    }
    line.renew(to);
    line.routes() == wanted
}

fn is_renewed(alloc: Global) -> Option<bool> {
    let mut line = order_of(alloc, LINE)?;
    let other = graph(alloc, LINE_BACK)?;
    Some(renews(alloc, &mut line, &other, &[2, 1, 0, 3]))
}

#[test]
fn an_order_is_made_anew(rt: HostRuntime) {
    row_holds(&rt, 0, is_renewed(rt.alloc()) == Some(true));
}
