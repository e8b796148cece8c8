//! Blocks of tracks: what their regions make of sources in memory, sample by sample, and how many reads that takes.
ghost use Rattle.std.specs.Prelude.{◌≡◌, ◌+◌, ◌<◌, ◌≤◌, ◌⊎◌, ◌∷◌, [], All, IfSome};
ghost use Rattle.session_model.specs.Region.{region_of, IsRegion};
ghost use Rattle.session_model.specs.MemFrames.{channels_in};

mod counter;
mod rows;

use counter::{Counter, counting};
use playlist_layers::{Scratch, render};
use rows::{MONO, STEREO};
use ses_units::{Gain, Shape};
use session_model::{Playlist, Region};
use std::alloc::Global;

/// A region, and the number of its gain.
#[derive(Clone, Copy)]
struct Part {
    id: u32,
    source: u32,
    start: u64,
    length: u64,
    at: u64,
    layer: u32,
    gain: u32,
    opaque: bool,
    fade_in: u64,
    shape: Shape,
}

/// A block of eight frames: the sources, the regions, the first position, the samples that are heard, and how often a
/// source is read.
struct Row {
    name: &'static str,
    sounds: [&'static [i32]; 3],
    parts: &'static [Part],
    from: u64,
    want: &'static [i32],
    reads: u32,
}

// The region of a part, None where its numbers aren't small.
fn region(part: &Part) -> Option<Region>
    ensures limits { IfSome result (λ r. IsRegion (region_of r)) }
    ensures source { IfSome result (λ r. r.source < 3) }
{
    if part.id < 1 || part.id > 9 || part.source > 2 || part.layer > 9 {
        return None;
    }
    if part.start > 99 || part.length < 1 || part.length > 99 || part.at > 99 {
        return None;
    }
    if part.fade_in > part.length {
        return None;
    }
    Some(Region {
        id: part.id,
        source: part.source,
        start: part.start,
        length: part.length,
        at: part.at,
        layer: part.layer,
        gain: Gain::new(part.gain).ok()?,
        opaque: part.opaque,
        fade_in: part.fade_in,
        fade_out: 0,
        shape_in: part.shape,
        shape_out: Shape::Linear,
    })
}

// A playlist of these regions, None where they make none.
fn playlist(alloc: Global, parts: &[Part]) -> Option<Playlist>
    ensures { IfSome result (λ p. All (λ r. r.source < 3) p) }
{
    let mut list = Playlist::new(alloc).ok()?;
    for part in parts {
        let r = region(part)?;
        if list.is_full() || list.has(r.id) {
            return None;
        }
        list.insert(r);
    }
    Some(list)
}

// Fills `out` with the block of a row.
fn block(alloc: Global, row: &Row, channels: u16, frames: &mut Counter, out: &mut [i32]) -> bool
    requires channels { (channels ≡ 1) ⊎ (channels ≡ 2) }
    requires sources { channels_in frames.old.frames.sources ≡ channels ∷ channels ∷ channels ∷ [] }
{
    if out.len() != 8 * channels as usize || row.from > 99 {
        return false;
    }
    let Some(list) = playlist(alloc, row.parts) else {
        return false;
    };
    let Ok(mut scratch) = Scratch::new(alloc, 8) else {
        return false;
    };
    render(&list, channels, row.from, &mut scratch, frames, out).is_ok()
}

// Whether a row's block is what is wanted of it.
fn is_heard(alloc: Global, row: &Row, channels: u16, out: &mut [i32]) -> bool
    requires { (channels ≡ 1) ⊎ (channels ≡ 2) }
{
    match counting(alloc, channels, row.sounds) {
        Some(mut frames) => {
            block(alloc, row, channels, &mut frames, out)
                && *out == *row.want
                && frames.reads == row.reads
        }
        None => false,
    }
}

#[test]
fn a_track_of_one_channel_is_heard_by_its_regions(rt: HostRuntime) {
    for row in MONO {
        let mut out = [7; 8];
        assert!(rt; is_heard(rt.alloc(), row, 1, &mut out), "{}", row.name);
    }
}

#[test]
fn a_track_of_two_channels_is_heard_by_its_regions(rt: HostRuntime) {
    for row in STEREO {
        let mut out = [7; 16];
        assert!(rt; is_heard(rt.alloc(), row, 2, &mut out), "{}", row.name);
    }
}
