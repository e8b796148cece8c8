//! A region shows a source of its track's channels.
ghost use Rattle.std.specs.Prelude.{◌≡◌};
ghost use Rattle.session_toml.specs.Rules as spec;

use super::lookups::source_channels;
use session_model::{SessionRefusal, SourceDecl};
use session_walk::TrackOwn;

// Whether a region of the track shows a source of other channels.
fn shows_other(sources: &[SourceDecl], track: &TrackOwn) -> bool
    ensures { result ≡ spec.shows_other sources.now track.now }
{
    let mut regions = track.regions.as_slice().iter();
    regions.any(|region| source_channels(sources, region.source) != track.named.channels)
}

/// Refuses the first track of which a region shows a source of other channels.
pub(crate) fn sources_fit(sources: &[SourceDecl], tracks: &[TrackOwn]) -> Result<(), SessionRefusal>
    ensures { result ≡ spec.sources_fit sources.now tracks.now }
{
    for track in tracks {
        if shows_other(sources, track) {
            return Err(SessionRefusal::Channels(track.named.name));
        }
    }
    Ok(())
}
