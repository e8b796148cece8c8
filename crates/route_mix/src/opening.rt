//! Which routes are open: not muted, and not silenced by the solo of another.
ghost use Rattle.std.specs.Prelude.{◌≡◌};
ghost use Rattle.std.specs.List.{list_any};
ghost use Rattle.sound_model.specs.Routes as sound;
ghost use Rattle.session_model.specs.Views as views;

use session_model::{Route, RouteKind, Session, Track};

fn is_soloed(tracks: &[Track], kind: RouteKind) -> bool
    ensures { result ≡ views.is_soloed tracks.now kind }
{
    match kind {
        RouteKind::Track(t) => match tracks.get(t as usize) {
            Some(track) => track.solo,
            None => false,
        },
        RouteKind::Bus | RouteKind::Master => false,
    }
}

fn is_any_soloed(tracks: &[Track], routes: &[Route]) -> bool
    ensures { result ≡ list_any (λ q. views.is_soloed tracks.now q.kind) routes.now }
{
    routes.iter().any(|q| is_soloed(tracks, q.kind))
}

/// Whether some track is soloed.
pub(crate) fn any_solo(s: &Session) -> bool
    ensures { result ≡ sound.any_solo (views.routes_of s.now) }
{
    is_any_soloed(s.tracks.as_slice(), s.routes.as_slice())
}

/// Whether a route is open, where some track is soloed or none.
pub(crate) fn is_open(s: &Session, route: &Route, solo: bool) -> bool
    ensures { result ≡ sound.is_open solo (views.route_of s.now.tracks.items route.now) }
{
    if route.muted {
        return false;
    }
    match route.kind {
        RouteKind::Track(_) => !solo || is_soloed(s.tracks.as_slice(), route.kind),
        RouteKind::Bus | RouteKind::Master => true,
    }
}
