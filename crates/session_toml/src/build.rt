//! The session that a text means, once no rule refuses it.
ghost use Rattle.std.specs.Prelude.{◌≡◌, ◌≤◌, ◌<◌, [], length, codes, All, IfOk};
ghost use Rattle.session_toml.specs.Apart.{ArePlayable};
ghost use Rattle.session_toml.specs.Built as spec;
ghost use Rattle.session_model.specs.Region.{region_of};

use crate::places::place_of;
use ses_io::NoMemory;
use ses_units::limits::{ROUTES, SENDS, TRACKS};
use ses_units::{Gain, Name};
use session_model::{
    Playlist, Region, Route, RouteKind, RouteList, SendLink, SendList, Track, TrackList,
};
use session_walk::{
    Automation, ChannelStrip, MasterText, RegionText, RouteText, SendText, TrackOwn,
};
use std::alloc::Global;

// ---- routes

fn send_in(names: &[Name], send: &SendText) -> SendLink
    requires { length names.now ≤ 64 }
    ensures { result ≡ spec.send_in names.now send.now }
{
    SendLink {
        to: place_of(names, send.to) as u32,
        pre: send.pre,
        gain: send.gain,
    }
}

fn sends_in(alloc: Global, names: &[Name], sends: &[SendText]) -> Result<SendList, NoMemory>
    requires names { length names.now ≤ 64 }
    requires few { length sends.now ≤ 8 }
    ensures { IfOk result (λ l. l ≡ spec.sends_in names.now sends.now) }
{
    let mut links = SendList::new(alloc, SENDS)?;
    for send in sends {
        links.push(send_in(names, send));
    }
    Ok(links)
}

pub(crate) fn kind_in(tracks: u32, place: u32) -> RouteKind
    ensures { result ≡ spec.kind_in tracks place }
{
    if place < tracks {
        RouteKind::Track(place)
    } else {
        RouteKind::Bus
    }
}

/// The route of a track or a bus.
#[tactic(auto, unfolding(crate::specs::Built::route_in))]
pub(crate) fn route_in(
    alloc: Global,
    names: &[Name],
    kind: RouteKind,
    text: RouteText,
) -> Result<Route, NoMemory>
    requires names { length names.now ≤ 64 }
    requires few { length text.sends.items ≤ 8 }
    ensures { IfOk result (λ q. q ≡ spec.route_in names.now kind text) }
{
    let RouteText {
        named,
        strip,
        sends,
    } = text;
    let ChannelStrip {
        out,
        level,
        left,
        right,
        automation,
    } = strip;
    let Automation { mode, lane } = automation;
    let target = place_of(names, out) as u32;
    let sends = sends_in(alloc, names, sends.as_slice())?;
    Ok(Route {
        name: named.name,
        kind,
        channels: named.channels,
        fader: level.gain,
        mode,
        lane,
        muted: level.muted,
        left,
        right,
        target: Some(target),
        sends,
    })
}

fn master_name() -> Name
    ensures { result ≡ codes "master" }
{
    match Name::new("master") {
        Ok(name) => name,
        Err(_) => unreachable!(),
    }
}

/// The master's route.
#[tactic(auto, unfolding(crate::specs::Built::master_in))]
pub(crate) fn master_in(alloc: Global, channels: u16, text: MasterText) -> Result<Route, NoMemory>
    ensures { IfOk result (λ q. q ≡ spec.master_in channels text) }
{
    let MasterText { level, automation } = text;
    let Automation { mode, lane } = automation;
    let sends = SendList::new(alloc, SENDS)?;
    Ok(Route {
        name: master_name(),
        kind: RouteKind::Master,
        channels,
        fader: level.gain,
        mode,
        lane,
        muted: level.muted,
        left: Gain::UNITY,
        right: Gain::UNITY,
        target: None,
        sends,
    })
}

// ---- tracks

#[tactic(auto, unfolding(crate::specs::Built::region_in))]
fn region_in(names: &[Name], text: &RegionText) -> Region
    requires { length names.now ≤ 64 }
    ensures { region_of result ≡ spec.region_in names.now text.now }
{
    Region {
        id: text.id,
        source: place_of(names, text.source) as u32,
        start: text.span.start,
        length: text.span.length,
        at: text.span.at,
        layer: text.layer,
        gain: text.gain,
        opaque: text.opaque,
        fade_in: text.fades.fade_in,
        fade_out: text.fades.fade_out,
        shape_in: text.fades.shape_in,
        shape_out: text.fades.shape_out,
    }
}

// The regions as a playlist, the last one first.
fn playlist_in(alloc: Global, names: &[Name], texts: &[RegionText]) -> Result<Playlist, NoMemory>
    requires names { length names.now ≤ 64 }
    requires playable { ArePlayable texts.now }
    ensures { IfOk result (λ l. l ≡ spec.playlist_in names.now texts.now) }
{
    let mut list = Playlist::new(alloc)?;
    for k in 0..texts.len() {
        let text = &texts[texts.len() - 1 - k];
        list.insert(region_in(names, text));
    }
    Ok(list)
}

/// The track at a place.
#[tactic(auto, unfolding(crate::specs::Built::track_in))]
pub(crate) fn track_in(
    alloc: Global,
    names: &[Name],
    place: u32,
    text: &TrackOwn,
) -> Result<Track, NoMemory>
    requires names { length names.now ≤ 64 }
    requires playable { ArePlayable text.now.regions.items }
    ensures { IfOk result (λ k. k ≡ spec.track_in names.now place text.now) }
{
    let list = playlist_in(alloc, names, text.regions.as_slice())?;
    Ok(Track {
        route: place,
        solo: text.settings.solo,
        armed: text.settings.armed,
        input: text.settings.input,
        list,
    })
}

// ---- the lists of a session

/// The routes of tracks and busses, with room for one more at least.
pub(crate) fn routes_in(
    alloc: Global,
    names: &[Name],
    tracks: u32,
    texts: Vec<RouteText>,
) -> Result<RouteList, NoMemory>
    requires names { length names.now ≤ 64 }
    requires few { length texts.items ≤ 63 }
    requires sends { All (λ q. length q.sends.items ≤ 8) texts.items }
    ensures { IfOk result (λ l. l ≡ spec.listed 64 (spec.numbered (λ place.
        spec.route_in names.now (spec.kind_in tracks place)) 0 texts.items)) }
{
    let mut routes = RouteList::new(alloc, ROUTES)?;
    for text in texts {
        let kind = kind_in(tracks, routes.len() as u32);
        let route = route_in(alloc, names, kind, text)?;
        routes.push(route);
    }
    Ok(routes)
}

/// The tracks.
pub(crate) fn tracks_in(
    alloc: Global,
    names: &[Name],
    texts: &[TrackOwn],
) -> Result<TrackList, NoMemory>
    requires names { length names.now ≤ 64 }
    requires few { length texts.now ≤ 32 }
    requires playable { All (λ k. ArePlayable k.regions.items) texts.now }
    ensures { IfOk result (λ l. l ≡ spec.listed 32
        (spec.numbered (spec.track_in names.now) 0 texts.now)) }
{
    let mut tracks = TrackList::new(alloc, TRACKS)?;
    for (i, text) in texts.iter().enumerate() {
        let track = track_in(alloc, names, i as u32, text)?;
        tracks.push(track);
    }
    Ok(tracks)
}
