//! A run of places that follow one another: the frames of a track's regions, read and laid by layers.
ghost use Rattle.std.specs.Prelude.{◌≡◌, ◌^◌, ◌<◌, ◌⊎◌, All, length, OnOk};
ghost use Rattle.playlist_layers.specs.Blocks.{track_block};
ghost use Rattle.playlist_layers.specs.Reads.{HasSource};
ghost use Rattle.audio_source.specs.Opened.{channels_of};
ghost use Rattle.audio_source.specs.Told.{source_sound};
ghost use Rattle.audio_source.specs.Lines.{HoldsAsRead};
ghost use Rattle.track_render.specs.Blocks.{IsBlock};
ghost use Rattle.track_render.specs.Reading.{IsReadOn};

use audio_source::{ReadFault, SourceView, Sources};
use playlist_layers::Scratch;
use ses_io::Media;
use session_model::Playlist;

/// Fills `out` with the samples of a track of these regions at the places from one on. It takes no memory. After a fault
/// the content of `out` isn't said.
pub(crate) fn run<M: Media>(
    sources: &mut Sources,
    media: &mut M,
    list: &Playlist,
    channels: u16,
    place: u64,
    scratch: &mut Scratch,
    out: &mut [i32],
) -> Result<(), ReadFault>
    requires channels { (channels ≡ 1) ⊎ (channels ≡ 2) }
    requires shown { All (HasSource (channels_of sources.old.opened) channels) list.now }
    requires near { place < 2 ^ 41 }
    requires block { IsBlock channels scratch.old (length out.old) }
    ensures told { M.outside.tells → HoldsAsRead (M.outside.files media.old) sources.old
        → OnOk result (out.new ≡ track_block
        (source_sound (M.outside.files media.old) sources.old.opened)
        list.now channels place (length out.old)) }
    ensures room { scratch.new ≡ scratch.old }
    ensures read { IsReadOn M.outside media.old media.new sources.old sources.new result }
{
    let mut view = SourceView { sources, media };
    playlist_layers::render(list, channels, place, scratch, &mut view, out)?;
    Ok(())
}
