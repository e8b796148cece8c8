//! A block of a track: cut into spans, and each span read and laid by layers.
ghost use Rattle.std.specs.Prelude.{◌≡◌, ◌↔◌, ◌+◌, ◌-◌, ◌*◌, ◌/◌, ◌%◌, ◌^◌, ◌<◌, ◌≤◌, ◌⊎◌, IsTrue, length, reverse, All, OnOk};
ghost use Rattle.sound_model.specs.Numbers.{unity};
ghost use Rattle.session_model.specs.Frames.{sounds_of};
ghost use Rattle.session_model.specs.Region.{region_of, regions_of, IsRegion};
ghost use Rattle.ramp_fixed.specs.Fades.{IsUnfaded};
ghost use Rattle.playlist_layers.specs.Blocks.{track_block, heard_block};
ghost use Rattle.playlist_layers.specs.Reads.{HasSource, IsRead};
ghost use Rattle.playlist_layers.specs.Spans.{IsWhole, CoversSpan, picked};

use crate::heard::{heard, is_full};
use crate::scratch::Scratch;
use crate::spans::span_end;
use arrayvec::ArrayVec;
use ses_io::Failed;
use session_model::{Frames, Playlist, Region};

const UNITY: u32 = 65_536;

// Whether so many frames of a region, from a position on, are heard as its source has them.
fn is_plain(region: &Region, here: u64, count: u64) -> bool
    requires limits { IsRegion (region_of region.now) }
    requires covers { CoversSpan here count (region_of region.now) }
    ensures { IsTrue result ↔ (region.now.gain ≡ unity) × IsUnfaded region.now.length
        region.now.fade_in region.now.fade_out (here - region.now.at) count }
{
    region.gain.value() == UNITY && is_full(region, here, count)
}

// Fills `out` with the sound of the regions at these places, which stand highest first.
fn hear<F: Frames>(
    regions: &[Region],
    places: &[u16],
    channels: u16,
    here: u64,
    scratch: &mut Scratch,
    frames: &mut F,
    out: &mut [i32],
) -> Result<(), Failed>
    requires channels { (channels ≡ 1) ⊎ (channels ≡ 2) }
    requires sources { All (HasSource (F.outside.channels frames.old) channels)
        (regions_of regions.now) }
    requires limits { All IsRegion (regions_of regions.now) }
    requires places { All (λ p. p < length regions.now) places.now }
    requires few { length places.now ≤ 256 }
    requires covers { All (CoversSpan here (length out.old / channels))
        (picked (regions_of regions.now) places.now) }
    requires whole { length out.old % channels ≡ 0 }
    requires room { length out.old ≤ scratch.old * channels }
    ensures told { F.outside.tells frames.old → OnOk result (out.new ≡ heard_block
        (sounds_of (F.outside.frames frames.old)) (picked (regions_of regions.now) places.now)
        channels here (length out.old)) }
    ensures room { scratch.new ≡ scratch.old }
    ensures read { IsRead F.outside F.rest frames.old frames.new result }
{
    if places.is_empty() {
        out.fill(0);
        return Ok(());
    }
    let top = &regions[places[0] as usize];
    let count = (out.len() / channels as usize) as u64;
    if places.len() == 1 && is_plain(top, here, count) {
        return frames.frames(top.source, top.start + (here - top.at), out);
    }
    scratch.mix(regions, places, channels, here, frames, out)
}

// Fills `out` with a span of a track, in which none of the regions at these places begins or ends.
fn span<F: Frames>(
    regions: &[Region],
    places: &[u16],
    channels: u16,
    here: u64,
    scratch: &mut Scratch,
    frames: &mut F,
    out: &mut [i32],
) -> Result<(), Failed>
    requires channels { (channels ≡ 1) ⊎ (channels ≡ 2) }
    requires sources { All (HasSource (F.outside.channels frames.old) channels)
        (regions_of regions.now) }
    requires limits { All IsRegion (regions_of regions.now) }
    requires places { All (λ p. p < length regions.now) places.now }
    requires few { length places.now ≤ 256 }
    requires some { 0 < length out.old / channels }
    requires cut { All (IsWhole here (here + length out.old / channels))
        (picked (regions_of regions.now) places.now) }
    requires whole { length out.old % channels ≡ 0 }
    requires room { length out.old ≤ scratch.old * channels }
    ensures told { F.outside.tells frames.old → OnOk result (out.new ≡ heard_block
        (sounds_of (F.outside.frames frames.old))
        (reverse (picked (regions_of regions.now) places.now))
        channels here (length out.old)) }
    ensures room { scratch.new ≡ scratch.old }
    ensures read { IsRead F.outside F.rest frames.old frames.new result }
{
    let count = (out.len() / channels as usize) as u64;
    let mut on = ArrayVec::new();
    heard(regions, places, here, count, &mut on);
    hear(regions, on.as_slice(), channels, here, scratch, frames, out)
}

// Fills `out` with a block of a track from a position on, span by span.
fn spans<F: Frames>(
    regions: &[Region],
    places: &[u16],
    channels: u16,
    from: u64,
    scratch: &mut Scratch,
    frames: &mut F,
    out: &mut [i32],
) -> Result<(), Failed>
    requires channels { (channels ≡ 1) ⊎ (channels ≡ 2) }
    requires sources { All (HasSource (F.outside.channels frames.old) channels)
        (regions_of regions.now) }
    requires limits { All IsRegion (regions_of regions.now) }
    requires places { All (λ p. p < length regions.now) places.now }
    requires few { length places.now ≤ 256 }
    requires near { from < 2 ^ 41 }
    requires whole { length out.old % channels ≡ 0 }
    requires room { length out.old ≤ scratch.old * channels }
    ensures told { F.outside.tells frames.old → OnOk result (out.new ≡ heard_block
        (sounds_of (F.outside.frames frames.old))
        (reverse (picked (regions_of regions.now) places.now))
        channels from (length out.old)) }
    ensures room { scratch.new ≡ scratch.old }
    ensures read { IsRead F.outside F.rest frames.old frames.new result }
{
    let width = channels as usize;
    let count = out.len() / width;
    let last = from + count as u64;
    let mut done = 0;
    while done < count {
        let here = from + done as u64;
        let end = (span_end(regions, places, here, last) - from) as usize;
        let part = &mut out[done * width..end * width];
        span(regions, places, channels, here, scratch, frames, part)?;
        done = end;
    }
    Ok(())
}

/// The samples of a track from position `from` on, frame by frame and in each frame channel by
/// channel.
/// It takes no memory. What `out` holds after Failed isn't said.
pub fn render<F: Frames>(
    list: &Playlist,
    channels: u16,
    from: u64,
    scratch: &mut Scratch,
    frames: &mut F,
    out: &mut [i32],
) -> Result<(), Failed>
    requires channels { (channels ≡ 1) ⊎ (channels ≡ 2) }
    requires sources { All (HasSource (F.outside.channels frames.old) channels) list.now }
    requires whole { length out.old % channels ≡ 0 }
    requires room { length out.old ≤ scratch.old * channels }
    requires near { from < 2 ^ 41 }
    ensures told { F.outside.tells frames.old → OnOk result (out.new ≡ track_block
        (sounds_of (F.outside.frames frames.old)) list.now channels from (length out.old)) }
    ensures room { scratch.new ≡ scratch.old }
    ensures read { IsRead F.outside F.rest frames.old frames.new result }
{
    let count = scratch.count(out.len() / channels as usize);
    if count == 0 {
        return Ok(());
    }
    let mut places = ArrayVec::new();
    list.covering(from, count, &mut places);
    spans(
        list.regions(),
        places.as_slice(),
        channels,
        from,
        scratch,
        frames,
        out,
    )
}
