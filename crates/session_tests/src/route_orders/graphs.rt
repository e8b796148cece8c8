//! A session of busses and the master, made of a table of their links.
ghost use Rattle.std.specs.Prelude.{IfSome};
ghost use Rattle.session_model.specs.Formed.{IsFormed};

use super::formed::formed;
use ses_io::{FixedList, NoMemory};
use ses_units::{Bits, Gain, Lane, Mode, Name};
use session_model::{Route, RouteKind, SendLink, SendList, Session};
use std::alloc::Global;

/// A bus: the route that its output leads to, and the one that it sends to.
pub(crate) type Bus = (u32, Option<u32>);

fn sends(alloc: Global, send: Option<u32>) -> Result<SendList, NoMemory> {
    let mut sends = SendList::new(alloc, 8)?;
    if let Some(to) = send {
        let pre = true;
        let gain = Gain::UNITY;
        sends.push(SendLink { to, pre, gain });
    }
    Ok(sends)
}

fn route(
    alloc: Global,
    name: &str,
    target: Option<u32>,
    send: Option<u32>,
) -> Result<Route, NoMemory> {
    let Ok(name) = Name::new(name) else {
        return Err(NoMemory);
    };
    let Ok(lane) = Lane::new(alloc, &[]) else {
        return Err(NoMemory);
    };
    Ok(Route {
        name,
        kind: if target.is_some() {
            RouteKind::Bus
        } else {
            RouteKind::Master
        },
        channels: 1,
        fader: Gain::UNITY,
        mode: Mode::Manual,
        lane,
        muted: false,
        left: Gain::UNITY,
        right: Gain::UNITY,
        target,
        sends: sends(alloc, send)?,
    })
}

fn bus(alloc: Global, place: usize, bus: &Bus) -> Result<Route, NoMemory> {
    let name = format!(in alloc; "b{place}")?;
    route(alloc, name.as_str(), Some(bus.0), bus.1)
}

// The busses, each with its output and its send, and the master behind them.
fn routes(alloc: Global, busses: &[Bus]) -> Result<Vec<Route>, NoMemory> {
    let mut routes = Vec::new(alloc);
    for (place, links) in busses.iter().enumerate() {
        routes.push(bus(alloc, place, links)?)?;
    }
    routes.push(route(alloc, "master", None, None)?)?;
    Ok(routes)
}

// A session of no route.
fn empty(alloc: Global) -> Option<Session> {
    let Ok(takes) = Name::new("take") else {
        return None;
    };
    Some(Session {
        rate: 48_000,
        bits: Bits::B16,
        block: 4,
        depth: 2,
        takes,
        sources: FixedList::from_vec(Vec::new(alloc)),
        routes: FixedList::from_vec(Vec::new(alloc)),
        tracks: FixedList::from_vec(Vec::new(alloc)),
    })
}

/// The session with these busses, each with its output and its send.
pub(crate) fn graph(alloc: Global, busses: &[Bus]) -> Option<Session>
    ensures { IfSome result IsFormed }
{
    let Ok(routes) = routes(alloc, busses) else {
        return None;
    };
    if 64 < routes.len() {
        return None;
    }
    let mut session = empty(alloc)?;
    session.routes = FixedList::from_vec(routes);
    formed(session)
}
