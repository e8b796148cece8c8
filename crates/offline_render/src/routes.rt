//! What a route makes of its input at one place: before its fader and behind it.
ghost use Rattle.std.specs.Prelude.{◌≡◌, ◌^◌, ◌<◌};
ghost use Rattle.std.specs.List.{list_any};
ghost use Rattle.sound_model.specs.Lanes as lanes;
ghost use Rattle.sound_model.specs.Routes as sound;
ghost use Rattle.ses_units.specs.Mode.{mode_of};
ghost use Rattle.session_model.specs.Views as views;

use ramp_fixed::lane_block;
use ses_units::{Gain, clip, scale};
use session_model::{Route, RouteKind, Session, Track};

/// What a route has on one channel: before its fader, and behind it.
#[derive(Clone, Copy)]
pub(crate) struct Taps {
    pub(crate) before: i32,
    pub(crate) behind: i32,
}

fn is_soloed(tracks: &[Track], kind: RouteKind) -> bool
    ensures { result ≡ views.is_soloed tracks.now kind }
{
    match kind {
        RouteKind::Track(t) => match tracks.get(t as usize) {
            Some(track) => track.solo,
            None => false,
        },
        RouteKind::Bus | RouteKind::Master => false,
    }
}

fn any_is_soloed(tracks: &[Track], routes: &[Route]) -> bool
    ensures { result ≡ list_any (λ q. views.is_soloed tracks.now q.kind) routes.now }
{
    routes.iter().any(|q| is_soloed(tracks, q.kind))
}

/// Whether some track is soloed.
pub(crate) fn any_solo(s: &Session) -> bool
    ensures { result ≡ sound.any_solo (views.routes_of s.now) }
{
    any_is_soloed(s.tracks.as_slice(), s.routes.as_slice())
}

// Whether a route lets its sound through, where some track is soloed or none.
fn is_open(tracks: &[Track], solo: bool, q: &Route) -> bool
    ensures { result ≡ sound.is_open solo (views.route_of tracks.now q.now) }
{
    let is_track = matches!(q.kind, RouteKind::Track(_));
    !q.muted && (!is_track || !solo || is_soloed(tracks, q.kind))
}

// The gain of a route at a place.
fn gain_at(q: &Route, place: u64) -> Gain
    requires { place < 2 ^ 41 }
    ensures { result ≡ lanes.gain_at (mode_of q.now.mode) q.now.fader q.now.lane place }
{
    let mut gains = [0];
    lane_block(&q.lane, q.fader, q.mode, &[place], &mut gains);
    match Gain::new(gains[0]) {
        Ok(gain) => gain,
        Err(_) => unreachable!(),
    }
}

/// What a route makes of its input at a place, where some track is soloed or none.
pub(crate) fn tapped(s: &Session, solo: bool, q: &Route, place: u64, input: i32) -> Taps
    requires near { place < 2 ^ 41 }
    ensures before { result.before
        ≡ sound.pre solo (views.route_of s.now.tracks.items q.now) input }
    ensures behind { result.behind
        ≡ sound.post solo (views.route_of s.now.tracks.items q.now) place input }
{
    if !is_open(s.tracks.as_slice(), solo, q) {
        return Taps {
            before: 0,
            behind: 0,
        };
    }
    let gain = gain_at(q, place);
    Taps {
        before: input,
        behind: clip(scale(i64::from(input), gain)),
    }
}
