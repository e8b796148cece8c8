//! What the types of a session's parts keep, read once so that it is known of the whole session.
ghost use Rattle.std.specs.Prelude.{◌≤◌, All};
ghost use Rattle.session_model.specs.Playlist.{IsPlaylist};
ghost use Rattle.engine_model.specs.MayMake.{HasQuietGains, KeepsItsTypes};

use session_model::{Route, SendLink, Session, Track};

fn read_sends(sends: &[SendLink])
    ensures { All (λ l. l.gain ≤ 262144) sends.now }
{
    for send in sends {
        let _gain = send.gain.value();
    }
}

fn read_route(route: &Route)
    ensures { HasQuietGains route.now }
{
    let _gains = (route.fader.value(), route.left.value(), route.right.value());
    let _points = route.lane.points();
    read_sends(route.sends.as_slice());
}

fn read_routes(routes: &[Route])
    ensures { All HasQuietGains routes.now }
{
    for route in routes {
        read_route(route);
    }
}

fn read_tracks(tracks: &[Track])
    ensures { All (λ k. IsPlaylist k.list) tracks.now }
{
    for track in tracks {
        let _regions = track.list.regions();
    }
}

/// Reads the limits that gains, lanes and playlists keep by their types.
pub(crate) fn read_types(s: &Session)
    ensures { KeepsItsTypes s.now }
{
    read_routes(s.routes.as_slice());
    read_tracks(s.tracks.as_slice());
}
