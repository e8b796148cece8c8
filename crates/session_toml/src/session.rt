//! The reading of a session.
ghost use Rattle.std.specs.Prelude.{◌≡◌, ◌++◌, ◌∷◌, [], ◌≤◌, length, slice_get, option_map, All, IfOk};
ghost use Rattle.session_model.specs.Formed.{IsFormed};
ghost use Rattle.session_model.specs.Valid.{IsValid};
ghost use Rattle.session_walk.specs.Fault.{Gives};
ghost use Rattle.session_toml.specs.Apart.{ArePlayable};
ghost use Rattle.session_toml.specs.Built as built;
ghost use Rattle.session_toml.specs.Session as spec;

use crate::build::{master_in, routes_in, tracks_in};
use crate::desk::{Desk, desk_of};
use crate::places::{route_names, source_names};
use crate::rules::rules;
use route_graph::{OrderRefusal, order};
use ses_io::NoMemory;
use ses_units::Name;
use session_model::{RouteList, Session, SessionRefusal, SourceDecl, SourceList, TrackList};
use session_walk::{Head, MasterText, RouteText, SessionFault, TrackOwn, Written, written};
use std::alloc::Global;

// The routes of the desk, and the master after them.
fn all_routes(
    alloc: Global,
    tracks: u32,
    texts: Vec<RouteText>,
    channels: u16,
    master: MasterText,
) -> Result<RouteList, NoMemory>
    requires few { length texts.items ≤ 63 }
    requires sends { All (λ q. length q.sends.items ≤ 8) texts.items }
    ensures { IfOk result (λ l. l ≡ built.listed 64
        (built.routes_in tracks texts.items ++ built.master_in channels master ∷ [])) }
{
    let names = route_names(alloc, &texts)?;
    let mut routes = routes_in(alloc, &names, tracks, texts)?;
    let master = master_in(alloc, channels, master)?;
    routes.push(master);
    Ok(routes)
}

fn all_tracks(
    alloc: Global,
    sources: &[SourceDecl],
    texts: &[TrackOwn],
) -> Result<TrackList, NoMemory>
    requires sources { length sources.now ≤ 64 }
    requires few { length texts.now ≤ 32 }
    requires playable { All (λ k. ArePlayable k.regions.items) texts.now }
    ensures { IfOk result (λ l. l ≡ built.listed 32
        (built.numbered (built.track_in (built.source_names sources.now)) 0 texts.now)) }
{
    let names = source_names(alloc, sources)?;
    tracks_in(alloc, &names, texts)
}

// The session that a text means, once no rule refuses it.
#[tactic(auto, unfolding(crate::specs::Built::session_in))]
fn session_in(
    alloc: Global,
    head: Head,
    sources: SourceList,
    desk: Desk,
    master: MasterText,
) -> Result<Session, NoMemory>
    requires sources { length sources.items ≤ 64 }
    requires room { sources.room ≡ 64 }
    requires routes { length desk.routes.items ≤ 63 }
    requires tracks { length desk.tracks.items ≤ 32 }
    requires sends { All (λ q. length q.sends.items ≤ 8) desk.routes.items }
    requires playable { All (λ k. ArePlayable k.regions.items) desk.tracks.items }
    ensures { IfOk result (λ s. s ≡ built.session_in head sources.items desk.routes.items
        desk.tracks.items master) }
{
    let Desk {
        routes: route_texts,
        tracks: track_texts,
    } = desk;
    let tracks = all_tracks(alloc, sources.as_slice(), &track_texts)?;
    let many = track_texts.len() as u32;
    let routes = all_routes(alloc, many, route_texts, head.channels, master)?;
    Ok(Session {
        rate: head.rate,
        bits: head.bits,
        block: head.block,
        depth: head.depth,
        takes: head.takes,
        sources,
        routes,
        tracks,
    })
}

// The session, but for the rule on cycles.
#[tactic(auto, unfolding(crate::specs::Session::laid_out))]
fn laid_out(alloc: Global, bytes: &[u8]) -> Result<Session, SessionFault>
    ensures { Gives (spec.laid_out bytes.now) result }
{
    let text = written(alloc, bytes)?;
    let Written {
        head,
        sources,
        tracks,
        busses,
        master,
    } = text;
    let desk = desk_of(alloc, tracks, busses)?;
    rules(
        &desk.routes,
        &desk.tracks,
        sources.as_slice(),
        head.channels,
    )?;
    let session = session_in(alloc, head, sources, desk, master)?;
    Ok(session)
}

fn route_at(session: &Session, place: u32) -> Option<Name>
    ensures { result ≡ option_map (λ q. q.name) (slice_get session.now.routes.items place) }
{
    match session.routes.as_slice().get(place as usize) {
        Some(route) => Some(route.name),
        None => None,
    }
}

// Refuses a session of which a route leads back to itself.
fn without_cycle(alloc: Global, session: Session) -> Result<Session, SessionFault>
    requires { IsFormed session }
    ensures { Gives (spec.without_cycle session) result }
{
    match order(alloc, &session) {
        Ok(_) => Ok(session),
        Err(OrderRefusal::NoMemory) => Err(SessionFault::NoMemory),
        Err(OrderRefusal::Cycle(place)) => match route_at(&session, place) {
            Some(name) => Err(SessionFault::Refused(SessionRefusal::Cycle(name))),
            None => Ok(session),
        },
    }
}

/// The session that a text in TOML says, or the first rule that it breaks (own; TOML 1.0 by the
/// reading of `toml`). Its bytes are those of a session's file. Want of memory alone is free.
#[tactic(auto, unfolding(crate::specs::Session::session))]
pub fn session_of(alloc: Global, bytes: &[u8]) -> Result<Session, SessionFault>
    ensures exact { Gives (spec.session bytes.now) result }
    ensures valid { IfOk result IsValid }
{
    let session = laid_out(alloc, bytes)?;
    without_cycle(alloc, session)
}
