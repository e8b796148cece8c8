//! The routes: a track's leads to the master, by a fader that is lower the higher its number.
ghost use Rattle.std.specs.Prelude.{◌≡◌, ◌≤◌, ◌<◌, codes, IfOk};
ghost use Rattle.made_session.specs.Each.{listed};
ghost use Rattle.made_session.specs.Made as spec;

use crate::counts::tracks_made;
use ses_io::NoMemory;
use ses_units::limits::{ROUTES, SENDS};
use ses_units::{Gain, Lane, Mode, Name};
use session_model::{Route, RouteKind, RouteList, SendList};
use std::alloc::Global;

// The name of a track: `t` and its number.
fn track_name(alloc: Global, t: u32) -> Result<Name, NoMemory>
    requires { t < 32 }
    ensures { IfOk result (λ name. name ≡ spec.track_name t) }
{
    let text = format!(in alloc; "t{t}")?;
    match Name::new(text.as_str()) {
        Ok(name) => Ok(name),
        Err(_) => unreachable!(),
    }
}

fn master_name() -> Name
    ensures { result ≡ codes "master" }
{
    match Name::new("master") {
        Ok(name) => name,
        Err(_) => unreachable!(),
    }
}

// The fader of a track: unity, parted by its number from 1.
fn fader(t: u32) -> Gain
    requires { t < 32 }
    ensures { result ≡ spec.fader t }
{
    match Gain::new(65_536 / (t + 1)) {
        Ok(gain) => gain,
        Err(_) => unreachable!(),
    }
}

fn no_points(alloc: Global) -> Result<Lane, NoMemory>
    ensures { IfOk result (λ lane. lane ≡ spec.no_points) }
{
    match Lane::new(alloc, &[]) {
        Ok(lane) => Ok(lane),
        Err(_) => Err(NoMemory),
    }
}

// A mono route at unity that leads somewhere, or nowhere.
#[tactic(auto, unfolding(crate::specs::Made::route))]
fn route(
    alloc: Global,
    name: Name,
    kind: RouteKind,
    fader: Gain,
    target: Option<u32>,
) -> Result<Route, NoMemory>
    ensures { IfOk result (λ q. q ≡ spec.route name kind fader target) }
{
    let lane = no_points(alloc)?;
    let sends = SendList::new(alloc, SENDS)?;
    Ok(Route {
        name,
        kind,
        channels: 1,
        fader,
        mode: Mode::Manual,
        lane,
        muted: false,
        left: Gain::UNITY,
        right: Gain::UNITY,
        target,
        sends,
    })
}

// The route of the track of that number, from 0.
fn track_route(alloc: Global, n: u32, t: u32) -> Result<Route, NoMemory>
    requires { t < 32 }
    ensures { IfOk result (λ q. q ≡ spec.track_route n t) }
{
    let name = track_name(alloc, t)?;
    let to = Some(tracks_made(n));
    route(alloc, name, RouteKind::Track(t), fader(t), to)
}

// The routes of the tracks, with room for one more at least.
fn track_routes(alloc: Global, n: u32) -> Result<RouteList, NoMemory>
    ensures { IfOk result (λ l. l ≡ listed 64 (spec.track_routes n)) }
{
    let mut list = RouteList::new(alloc, ROUTES)?;
    for t in 0..tracks_made(n) {
        let route = track_route(alloc, n, t)?;
        list.push(route);
    }
    Ok(list)
}

/// The routes of a session that is made from this number.
pub(crate) fn route_list(alloc: Global, n: u32) -> Result<RouteList, NoMemory>
    ensures { IfOk result (λ l. l ≡ listed 64 (spec.route_items n)) }
{
    let mut list = track_routes(alloc, n)?;
    let master = route(alloc, master_name(), RouteKind::Master, Gain::UNITY, None)?;
    list.push(master);
    Ok(list)
}
