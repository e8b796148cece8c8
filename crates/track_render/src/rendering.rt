//! The samples of a block: frame i is the track sample at the place of its generation's frame. The block is read by runs
//! of places that follow one another.
ghost use Rattle.std.specs.Prelude.{◌≡◌, ◌+◌, ◌^◌, ◌<◌, ◌⊎◌, All, length, OnOk};
ghost use Rattle.session_model.specs.Formed.{channels_at};
ghost use Rattle.session_model.specs.Valid.{IsValid};
ghost use Rattle.session_model.specs.Views.{track_regions};
ghost use Rattle.locate_loop.specs.Transport.{transport_of, IsTransport};
ghost use Rattle.playlist_layers.specs.Reads.{HasSource};
ghost use Rattle.audio_source.specs.Opened.{IsListed, channels_of};
ghost use Rattle.audio_source.specs.Told.{source_sound};
ghost use Rattle.audio_source.specs.Lines.{HoldsAsRead};
ghost use Rattle.track_render.specs.Blocks.{IsBlock, placed_block};
ghost use Rattle.track_render.specs.Reading.{IsReadOn};

use crate::places::following;
use crate::run::run;
use audio_source::{ReadFault, Sources};
use locate_loop::Transport;
use playlist_layers::Scratch;
use ses_io::Media;
use session_model::{Playlist, Session};

// The channels of a track, which are those of its route.
fn width(session: &Session, track: u32) -> u16
    requires valid { IsValid session.now }
    requires track { track < length session.now.tracks.items }
    ensures channels { result ≡ channels_at session.now track }
    ensures some { (result ≡ 1) ⊎ (result ≡ 2) }
{
    session.routes.as_slice()[track as usize].channels
}

// Fills `out` with the samples of a track of these regions, run by run.
fn runs<M: Media>(
    sources: &mut Sources,
    media: &mut M,
    list: &Playlist,
    channels: u16,
    transport: &Transport,
    first: u64,
    scratch: &mut Scratch,
    out: &mut [i32],
) -> Result<(), ReadFault>
    requires channels { (channels ≡ 1) ⊎ (channels ≡ 2) }
    requires shown { All (HasSource (channels_of sources.old.opened) channels) list.now }
    requires transport { IsTransport transport.now }
    requires frames { first + length out.old < 2 ^ 30 }
    requires block { IsBlock channels scratch.old (length out.old) }
    ensures told { M.outside.tells → HoldsAsRead (M.outside.files media.old) sources.old
        → OnOk result (out.new ≡ placed_block
        (source_sound (M.outside.files media.old) sources.old.opened)
        list.now channels (transport_of transport.now) first (length out.old)) }
    ensures room { scratch.new ≡ scratch.old }
    ensures read { IsReadOn M.outside media.old media.new sources.old sources.new result }
{
    let width = channels as usize;
    let count = out.len() / width;
    let mut done = 0;
    while done < count {
        let place = transport.place(first + done as u64);
        let end = done + following(transport, place, count - done);
        let part = &mut out[done * width..end * width];
        run(sources, media, list, channels, place, scratch, part)?;
        done = end;
    }
    Ok(())
}

/// Fills `out` with a block of a track's samples, frame by frame and in each frame channel by channel: frame i is the
/// track sample at the place of frame `first + i` of the transport's generation. It takes no memory. A loop that is
/// shorter than the block is read once a lap. After a fault the content of `out` isn't said.
pub fn render<M: Media>(
    sources: &mut Sources,
    media: &mut M,
    session: &Session,
    track: u32,
    transport: &Transport,
    first: u64,
    scratch: &mut Scratch,
    out: &mut [i32],
) -> Result<(), ReadFault>
    requires valid { IsValid session.now }
    requires track { track < length session.now.tracks.items }
    requires sources { IsListed session.now.rate session.now.sources.items sources.old.opened }
    requires transport { IsTransport transport.now }
    requires frames { first + length out.old < 2 ^ 30 }
    requires block { IsBlock (channels_at session.now track) scratch.old (length out.old) }
    ensures told { M.outside.tells → HoldsAsRead (M.outside.files media.old) sources.old
        → OnOk result (out.new ≡ placed_block
        (source_sound (M.outside.files media.old) sources.old.opened)
        (track_regions session.now track) (channels_at session.now track)
        (transport_of transport.now) first (length out.old)) }
    ensures long { length out.new ≡ length out.old }
    ensures room { scratch.new ≡ scratch.old }
    ensures read { IsReadOn M.outside media.old media.new sources.old sources.new result }
{
    let list = &session.tracks.as_slice()[track as usize].list;
    let channels = width(session, track);
    runs(
        sources, media, list, channels, transport, first, scratch, out,
    )
}
