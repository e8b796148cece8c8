//! What stands at the places of tracks and sources: inputs, channels and regions.
ghost use Rattle.std.specs.Prelude.{◌≡◌, ◌<◌, ◌==◌, length};
ghost use Rattle.session_model.specs.Formed.{IsFormed, channels_at};
ghost use Rattle.session_model.specs.Views.{track_regions};
ghost use Rattle.session_model.specs.Region.{region_of};
ghost use Rattle.engine_model.specs.Commands.{has_input, source_channels, region_at};
ghost use Rattle.edit_resolve.specs.Resolves.{Tells};

use crate::reason::Refusal;
use crate::scans::region_of_id;
use session_model::{Playlist, Region, Session};

/// Whether a track takes input.
pub(crate) fn has_input(s: &Session, track: u32) -> bool
    requires { track < length s.now.tracks.items }
    ensures { result ≡ has_input s.now track }
{
    s.tracks.as_slice()[track as usize].input.is_some()
}

/// The regions of a track.
pub(crate) fn playlist(s: &Session, track: u32) -> &Playlist
    requires { track < length s.now.tracks.items }
    ensures { result.now ≡ track_regions s.now track }
{
    &s.tracks.as_slice()[track as usize].list
}

/// The region of a track that has the id.
pub(crate) fn region_at(s: &Session, track: u32, id: u32) -> Result<Region, Refusal>
    requires { track < length s.now.tracks.items }
    ensures { Tells region_of (region_at s.now track id) result }
{
    match region_of_id(playlist(s, track).regions(), id) {
        Some(region) => Ok(*region),
        None => Err(Refusal::NoRegion(id)),
    }
}

/// Whether a source has as many channels as a track.
pub(crate) fn fits(s: &Session, source: u32, track: u32) -> bool
    requires formed { IsFormed s.now }
    requires here { source < length s.now.sources.items }
    requires there { track < length s.now.tracks.items }
    ensures { result ≡ (source_channels s.now source == channels_at s.now track) }
{
    let source = &s.sources.as_slice()[source as usize];
    source.channels == s.routes.as_slice()[track as usize].channels
}
