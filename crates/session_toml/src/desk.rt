//! The tracks and busses of a text, laid out as routes and tracks.
ghost use Rattle.std.specs.Prelude.{◌≡◌, ◌++◌, IfOk, map};

use ses_io::{FixedList, NoMemory};
use session_walk::{RouteText, TrackOwn, TrackText};
use std::alloc::Global;

/// The routes of the tracks, then of the busses; and what the tracks have beside.
#[derive(Drop)]
pub(crate) struct Desk {
    pub routes: Vec<RouteText>,
    pub tracks: Vec<TrackOwn>,
}

// The desk of tracks alone.
fn tracks_of(alloc: Global, texts: FixedList<TrackText>) -> Result<Desk, NoMemory>
    ensures routes { IfOk result (λ d. d.routes.items ≡ map (λ k. k.route) texts.items) }
    ensures tracks { IfOk result (λ d. d.tracks.items ≡ map (λ k. k.own) texts.items) }
{
    let mut routes = Vec::new(alloc);
    let mut tracks = Vec::new(alloc);
    for text in texts.into_vec() {
        routes.push(text.route)?;
        tracks.push(text.own)?;
    }
    Ok(Desk { routes, tracks })
}

/// The desk of tracks and busses.
pub(crate) fn desk_of(
    alloc: Global,
    tracks: FixedList<TrackText>,
    busses: FixedList<RouteText>,
) -> Result<Desk, NoMemory>
    ensures routes { IfOk result (λ d. d.routes.items
        ≡ map (λ k. k.route) tracks.items ++ busses.items) }
    ensures tracks { IfOk result (λ d. d.tracks.items ≡ map (λ k. k.own) tracks.items) }
{
    let mut desk = tracks_of(alloc, tracks)?;
    let mut busses = busses.into_vec();
    desk.routes.append(&mut busses)?;
    Ok(desk)
}
