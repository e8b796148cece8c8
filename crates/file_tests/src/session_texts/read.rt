//! Texts that are read, field by field.
use super::edited;
use crate::parts::{gain, has_points};
use ses_units::{Bits, Gain, Mode, Shape};
use session_model::{Region, Route, RouteKind, SendLink, SendList, Session, Track};
use session_toml::session_of;
use std::alloc::Global;

// The route, of which nothing but its name, place and target is said.
fn is_plain(route: &Route, name: &str, kind: RouteKind, target: Option<u32>) -> bool {
    route.name.as_str() == name
        && route.kind == kind
        && route.channels == 1
        && route.fader == Gain::UNITY
        && route.mode == Mode::Manual
        && route.lane.points().is_empty()
        && !route.muted
        && route.left == Gain::UNITY
        && route.right == Gain::UNITY
        && route.target == target
        && route.sends.is_empty()
}

const BASE_REGION: Region = Region {
    id: 1,
    source: 0,
    start: 0,
    length: 8,
    at: 0,
    layer: 0,
    gain: Gain::UNITY,
    opaque: true,
    fade_in: 0,
    fade_out: 0,
    shape_in: Shape::Linear,
    shape_out: Shape::Linear,
};

fn is_base_track(track: &Track) -> bool {
    track.route == 0
        && !track.solo
        && !track.armed
        && track.input == Some(0)
        && track.list.regions() == [BASE_REGION].as_slice()
}

fn has_base_parts(session: &Session) -> bool {
    match (session.sources.as_slice(), session.tracks.as_slice()) {
        ([source], [track]) => {
            source.name.as_str() == "a"
                && source.file.as_str() == "a.wav"
                && source.channels == 1
                && is_base_track(track)
        }
        _ => false,
    }
}

fn has_base_routes(session: &Session) -> bool {
    match session.routes.as_slice() {
        [track, master] => {
            is_plain(track, "t", RouteKind::Track(0), Some(1))
                && is_plain(master, "master", RouteKind::Master, None)
        }
        _ => false,
    }
}

/// Whether a session is that of the base text.
pub(crate) fn is_base(session: &Session) -> bool {
    session.rate == 48_000
        && session.block == 4
        && session.depth == 2
        && session.bits == Bits::B16
        && session.takes.as_str() == "take"
        && has_base_parts(session)
        && has_base_routes(session)
}

/// The base text with every key in other words.
pub(super) const FULL: &str = r#"2:version = 2
4:bits = 24
5:channels = 2
8:takes = "day_1"
12:channels = 2
16:channels = 2
17:input = 6|solo = true|arm = true
18:out = "b"|gain = 1|mute = true|left = 2|right = 3|mode = "play"|lane = [[5, 6], [7, 8]]|send = [{ to = "master", pre = true, gain = 9 }, { to = "c" }]
23:at = 10|start = 11|layer = 12|gain = 13|opaque = false|fade_in = 3|fade_out = 5|shape_in = "slow"|shape_out = "linear"
24:[[bus]]|name = "b"|channels = 2|out = "c"|[[bus]]|name = "c"|channels = 2|mute = true|[master]|gain = 20|mute = true|mode = "play"|lane = [[0, 21]]"#;

const FULL_REGION: Region = Region {
    id: 1,
    source: 0,
    start: 11,
    length: 8,
    at: 10,
    layer: 12,
    gain: Gain::UNITY,
    opaque: false,
    fade_in: 3,
    fade_out: 5,
    shape_in: Shape::Slow,
    shape_out: Shape::Linear,
};

fn is_full_track(track: &Track) -> bool {
    let region = Region {
        gain: gain(13),
        ..FULL_REGION
    };
    track.solo
        && track.armed
        && track.input == Some(6)
        && track.list.regions() == [region].as_slice()
}

fn has_full_sends(sends: &SendList) -> bool {
    let first = SendLink {
        to: 3,
        pre: true,
        gain: gain(9),
    };
    let second = SendLink {
        to: 2,
        pre: false,
        gain: Gain::UNITY,
    };
    sends.as_slice() == [first, second].as_slice() && sends.room() == 8
}

fn is_full_route(route: &Route) -> bool {
    route.kind == RouteKind::Track(0)
        && route.channels == 2
        && route.fader.value() == 1
        && route.mode == Mode::Play
        && route.muted
        && route.left.value() == 2
        && route.right.value() == 3
        && route.target == Some(1)
        && has_full_sends(&route.sends)
        && has_points(&route.lane, &[(5, 6), (7, 8)])
}

fn is_full_master(route: &Route) -> bool {
    route.kind == RouteKind::Master
        && route.channels == 2
        && route.fader.value() == 20
        && route.muted
        && has_points(&route.lane, &[(0, 21)])
}

fn is_bus(route: &Route, target: u32, muted: bool) -> bool {
    route.kind == RouteKind::Bus && route.target == Some(target) && route.muted == muted
}

fn is_full(session: &Session) -> bool {
    session.bits == Bits::B24
        && session.takes.as_str() == "day_1"
        && match (session.tracks.as_slice(), session.routes.as_slice()) {
            ([track], [route, b, c, master]) => {
                is_full_track(track)
                    && is_full_route(route)
                    && is_bus(b, 2, false)
                    && is_bus(c, 3, true)
                    && is_full_master(master)
            }
            _ => false,
        }
}

fn is_bare(session: &Session) -> bool {
    (
        session.sources.len(),
        session.tracks.len(),
        session.routes.len(),
    ) == (0, 0, 1)
}

fn is_largest(session: &Session) -> bool {
    for track in session.tracks.as_slice() {
        if !track.list.is_full() {
            return false;
        }
    }
    (
        session.sources.len(),
        session.tracks.len(),
        session.routes.len(),
    ) == (64, 32, 64)
}

/// What a session has to be.
pub(super) enum Form {
    Base,
    Bare,
    Full,
    Largest,
}

/// Whether a session is read that is so.
pub(super) fn is_read(alloc: Global, bytes: &[u8], form: &Form) -> bool {
    match session_of(alloc, bytes) {
        Ok(session) => match form {
            Form::Base => is_base(&session),
            Form::Bare => is_bare(&session),
            Form::Full => is_full(&session),
            Form::Largest => is_largest(&session),
        },
        Err(_) => false,
    }
}

// Whether the base text with these edits is read so.
fn is_edited_and_read(alloc: Global, edits: &str, form: &Form) -> bool {
    match edited(alloc, edits) {
        Ok(text) => is_read(alloc, &text, form),
        Err(_) => false,
    }
}

#[test]
fn each_key_is_read(rt: HostRuntime) {
    assert!(rt; is_edited_and_read(rt.alloc(), "", &Form::Base));
    assert!(rt; is_edited_and_read(rt.alloc(), FULL, &Form::Full));
}
