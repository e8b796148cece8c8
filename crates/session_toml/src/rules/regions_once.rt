//! No two regions of a track have one id.
ghost use Rattle.std.specs.Prelude.{◌≡◌};
ghost use Rattle.session_toml.specs.Rules as spec;

use super::alike::first_twice;
use session_model::SessionRefusal;
use session_walk::TrackOwn;

// The first region of the track whose id stood before.
fn repeated(track: &TrackOwn) -> Option<SessionRefusal>
    ensures { result ≡ spec.region_twice track.now }
{
    let region = first_twice(track.regions.as_slice())?;
    Some(SessionRefusal::RegionTwice(track.named.name, region.id))
}

/// Refuses the first region whose id stood before on its track.
pub(crate) fn regions_once(tracks: &[TrackOwn]) -> Result<(), SessionRefusal>
    ensures { result ≡ spec.regions_once tracks.now }
{
    for track in tracks {
        if let Some(refusal) = repeated(track) {
            return Err(refusal);
        }
    }
    Ok(())
}
