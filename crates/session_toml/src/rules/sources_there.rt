//! Each source that a region shows is there.
ghost use Rattle.std.specs.Prelude.{◌≡◌};
ghost use Rattle.session_toml.specs.Rules as spec;

use super::lookups::has_source;
use ses_units::Name;
use session_model::{SessionRefusal, SourceDecl};
use session_walk::TrackOwn;

// The first source of the track's regions that isn't there.
fn lost_source(sources: &[SourceDecl], track: &TrackOwn) -> Option<Name>
    ensures { result ≡ spec.lost_source sources.now track.now }
{
    let mut regions = track.regions.as_slice().iter();
    let region = regions.find(|region| !has_source(sources, region.source))?;
    Some(region.source)
}

/// Refuses the first source that is shown and isn't there.
pub(crate) fn sources_there(
    sources: &[SourceDecl],
    tracks: &[TrackOwn],
) -> Result<(), SessionRefusal>
    ensures { result ≡ spec.sources_there sources.now tracks.now }
{
    for track in tracks {
        if let Some(name) = lost_source(sources, track) {
            return Err(SessionRefusal::NoSource(name));
        }
    }
    Ok(())
}
