//! Each call that wants memory, where there is enough, and the types and traits as a caller uses them.
ghost use Rattle.std.specs.Prelude.{◌%◌, ◌≡◌, ◌<◌, ◌≤◌, ◌∷◌, [], length, slice_index};
ghost use Rattle.session_model.specs.Region.{IsRegion, region_of};
ghost use Rattle.session_model.specs.MemFrames.{channels_in};

use crate::parts::list;
use crate::session_texts::is_base;
use ses_io::{Failed, NoMemory};
use ses_units::{Bits, Gain, Lane, Mode, Name, Shape};
use session_model::{
    FileName, Frames, MemFrames, MemSound, Playlist, Region, Route, RouteKind, RouteList, SendList,
    Session, Track, TrackList,
};
use std::alloc::Global;

fn region(id: u32, layer: u32) -> Region
    requires id_least { 1 ≤ id }
    requires id_most { id < 10 }
    requires layer { layer < 10 }
    ensures region { IsRegion (region_of result) }
{
    Region {
        id,
        source: 0,
        start: 0,
        length: 8,
        at: 0,
        layer,
        gain: Gain::UNITY,
        opaque: true,
        fade_in: 0,
        fade_out: 0,
        shape_in: Shape::Linear,
        shape_out: Shape::Linear,
    }
}

// Puts a region in, where the playlist takes it.
fn add(list: &mut Playlist, r: Region) -> bool
    requires { IsRegion (region_of r) }
{
    if list.is_full() || list.has(r.id) {
        return false;
    }
    list.insert(r);
    true
}

// Whether the regions have these ids.
fn has_ids(list: &Playlist, ids: &[u32]) -> bool {
    for (r, id) in list.regions().iter().zip(ids) {
        if r.id != *id {
            return false;
        }
    }
    list.len() == ids.len()
}

// Whether regions stand by layer, then by id, and an id stands once.
fn is_in_order(alloc: Global) -> bool {
    match Playlist::new(alloc) {
        Ok(mut list) => {
            add(&mut list, region(3, 0))
                && add(&mut list, region(1, 1))
                && add(&mut list, region(2, 0))
                && add(&mut list, region(4, 0))
                && !add(&mut list, region(3, 1))
                && has_ids(&list, &[2, 3, 4, 1])
                && matches!(list.remove(3), Some(Region { id: 3, .. }))
                && list.remove(3).is_none()
                && has_ids(&list, &[2, 4, 1])
        }
        Err(_) => false,
    }
}

// Whether the text makes a file name that is the text.
fn is_file(alloc: Global, text: &str) -> bool {
    match FileName::new(alloc, text) {
        Ok(name) => name.as_str() == text,
        Err(_) => false,
    }
}

#[test]
fn regions_stand_by_layer_then_id(rt: HostRuntime) {
    assert!(rt; is_in_order(rt.alloc()));
    assert!(rt; is_file(rt.alloc(), "a.wav"));
    assert!(rt; !is_file(rt.alloc(), "takes/a.wav"));
}

// The frames of the first source from its second frame on, through the trait's bound.
fn second_frames<F: Frames>(frames: &mut F, out: &mut [i32]) -> Result<(), Failed>
    requires source { 0 < length (F.outside.channels frames.old) }
    requires whole { length out.old % slice_index (F.outside.channels frames.old) 0 ≡ 0 }
    ensures channels { F.outside.channels frames.new ≡ F.outside.channels frames.old }
{
    frames.frames(0, 1, out)
}

// Whether silence follows the last frame, and a second call fails.
fn ends_in_silence(frames: &mut MemFrames) -> bool
    requires { channels_in frames.old.sources ≡ 2 ∷ [] }
{
    let mut out = [9; 4];
    let heard = second_frames(frames, &mut out);
    let samples = out;
    let failed = second_frames(frames, &mut out);
    heard == Ok(()) && samples == [3, -4, 0, 0] && failed == Err(Failed)
}

fn sound_ends_in_silence(alloc: Global) -> Result<bool, NoMemory> {
    let samples = vec![in alloc; 1, -2, 3, -4]?;
    let sound = MemSound::new(2, samples).ok_or(NoMemory)?;
    let sources = vec![in alloc; sound]?;
    let fails = vec![in alloc; 2]?;
    Ok(ends_in_silence(&mut MemFrames::new(sources, fails)))
}

fn route(alloc: Global, name: Name, kind: RouteKind, target: Option<u32>) -> Option<Route> {
    let lane = Lane::new(alloc, &[]).ok()?;
    let sends = SendList::new(alloc, 8).ok()?;
    Some(Route {
        name,
        kind,
        channels: 1,
        fader: Gain::UNITY,
        mode: Mode::Manual,
        lane,
        muted: false,
        left: Gain::UNITY,
        right: Gain::UNITY,
        target,
        sends,
    })
}

// A track's route and the master's.
fn routes(alloc: Global) -> Option<RouteList> {
    let mut routes = RouteList::new(alloc, 2).ok()?;
    for (name, kind, target) in [
        ("t", RouteKind::Track(0), Some(1)),
        ("master", RouteKind::Master, None),
    ] {
        let name = Name::new(name).ok()?;
        let route = route(alloc, name, kind, target)?;
        if !routes.is_full() {
            routes.push(route);
        }
    }
    Some(routes)
}

// A track with one region.
fn tracks(alloc: Global) -> Option<TrackList> {
    let mut list = Playlist::new(alloc).ok()?;
    let _ = add(&mut list, region(1, 0));
    let mut tracks = TrackList::new(alloc, 1).ok()?;
    tracks.push(Track {
        route: 0,
        solo: false,
        armed: false,
        input: Some(0),
        list,
    });
    Some(tracks)
}

fn small_session(alloc: Global) -> Option<Session> {
    let takes = Name::new("take").ok()?;
    let sources = list(alloc, &[("a.wav", 1)])?;
    let tracks = tracks(alloc)?;
    let routes = routes(alloc)?;
    Some(Session {
        rate: 48_000,
        bits: Bits::B16,
        block: 4,
        depth: 2,
        takes,
        sources,
        routes,
        tracks,
    })
}

fn small_session_is_base(alloc: Global) -> bool {
    match small_session(alloc) {
        Some(session) => is_base(&session),
        None => false,
    }
}

#[test]
fn the_small_session_is_a_value_and_a_sound_ends_in_silence(rt: HostRuntime) {
    assert!(rt; small_session_is_base(rt.alloc()));
    assert!(rt; sound_ends_in_silence(rt.alloc()) == Ok(true));
}
