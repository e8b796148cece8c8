//! No output and no send leads to a track.
ghost use Rattle.std.specs.Prelude.{◌≡◌, find, option_map};
ghost use Rattle.session_toml.specs.Rules as spec;

use super::lookups::is_track;
use ses_units::Name;
use session_model::SessionRefusal;
use session_walk::{RouteText, SendText, TrackOwn};

// The first track that a send leads to.
fn sent_track(tracks: &[TrackOwn], sends: &[SendText]) -> Option<Name>
    ensures { result ≡ option_map (λ l. l.to)
        (find (λ l. spec.is_track tracks.now l.to) sends.now) }
{
    let send = sends.iter().find(|send| is_track(tracks, send.to))?;
    Some(send.to)
}

// The first track that the route leads to, by its output, then its sends.
fn fed_track(tracks: &[TrackOwn], route: &RouteText) -> Option<Name>
    ensures { result ≡ spec.first_target (spec.is_track tracks.now) route.now }
{
    if is_track(tracks, route.strip.out) {
        return Some(route.strip.out);
    }
    sent_track(tracks, route.sends.as_slice())
}

/// Refuses the first track that a route leads to.
pub(crate) fn busses_fed(routes: &[RouteText], tracks: &[TrackOwn]) -> Result<(), SessionRefusal>
    ensures { result ≡ spec.busses_fed routes.now tracks.now }
{
    for route in routes {
        if let Some(name) = fed_track(tracks, route) {
            return Err(SessionRefusal::NotBus(name));
        }
    }
    Ok(())
}
