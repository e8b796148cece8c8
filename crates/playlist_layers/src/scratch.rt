//! The memory of a render: the sums of a block, and what one layer of it takes.
ghost use Rattle.std.specs.Prelude.{◌≡◌, ◌*◌, ◌/◌, ◌%◌, ◌<◌, ◌≤◌, ◌⊎◌, length, All, IfOk, OnOk};
ghost use Rattle.session_model.specs.Frames.{sounds_of};
ghost use Rattle.session_model.specs.Region.{regions_of, IsRegion};
ghost use Rattle.playlist_layers.specs.Blocks.{heard_block};
ghost use Rattle.playlist_layers.specs.Reads.{HasSource, IsRead};
ghost use Rattle.playlist_layers.specs.Spans.{CoversSpan, picked};

use crate::layers::LayerRoom;
use mix_kernel::clip_all;
use ses_io::{Failed, NoMemory};
use session_model::{Frames, Region};
use std::alloc::Global;
use std::marker::Model;

/// The memory of a render: room for a block of up to two channels, taken once. Contracts see how
/// many frames it has room for.
#[derive(Drop)]
pub struct Scratch {
    frames: u32,
    sums: Vec<i64>,
    layer: LayerRoom,
}

impl Model for Scratch {
    ghost use Rattle.std.specs.Prelude.{◌≡◌, ℕ, ◌*◌, length};

    ghost Value = { ℕ };

    ghost view = { λ s. s.frames };

    ghost invariant = { λ s. record {
      sums : length s.sums.items ≡ 2 * s.frames;
      layer : s.layer ≡ 2 * s.frames;
    } };
}

// Lays the regions at these places, which stand highest first, over one another, and clips them.
fn mix<F: Frames>(
    regions: &[Region],
    places: &[u16],
    channels: u16,
    here: u64,
    frames: &mut F,
    layer: &mut LayerRoom,
    sums: &mut [i64],
    out: &mut [i32],
) -> Result<(), Failed>
    requires channels { (channels ≡ 1) ⊎ (channels ≡ 2) }
    requires sources { All (HasSource (F.outside.channels frames.old) channels)
        (regions_of regions.now) }
    requires limits { All IsRegion (regions_of regions.now) }
    requires places { All (λ p. p < length regions.now) places.now }
    requires few { length places.now ≤ 256 }
    requires covers { All (CoversSpan here (length out.old / channels))
        (picked (regions_of regions.now) places.now) }
    requires whole { length out.old % channels ≡ 0 }
    requires sums { length out.old ≤ length sums.old }
    requires room { length out.old ≤ layer.old }
    ensures told { F.outside.tells frames.old → OnOk result (out.new ≡ heard_block
        (sounds_of (F.outside.frames frames.old)) (picked (regions_of regions.now) places.now)
        channels here (length out.old)) }
    ensures room { layer.new ≡ layer.old }
    ensures read { IsRead F.outside F.rest frames.old frames.new result }
{
    let sums = &mut sums[..out.len()];
    sums.fill(0);
    let mut i = places.len();
    while i > 0 {
        i -= 1;
        layer.lay(&regions[places[i] as usize], channels, here, frames, sums)?;
    }
    clip_all(sums, out);
    Ok(())
}

impl Scratch {
    /// Room for so many frames.
    pub fn new(alloc: Global, frames: u32) -> Result<Scratch, NoMemory>
        ensures { IfOk result (λ s. s ≡ frames) }
    {
        let samples = 2 * frames as usize;
        Ok(Scratch {
            frames,
            sums: vec![in alloc; 0; samples]?,
            layer: LayerRoom::new(alloc, samples)?,
        })
    }

    /// So many frames, for which there is room, as 32 bits count them.
    pub(crate) fn count(&self, frames: usize) -> u32
        requires { frames ≤ self.now }
        ensures { result ≡ frames }
    {
        let room = self.frames as usize;
        frames.min(room) as u32
    }

    /// Lays the regions at these places, which stand highest first, over one another, and clips
    /// them.
    pub(crate) fn mix<F: Frames>(
        &mut self,
        regions: &[Region],
        places: &[u16],
        channels: u16,
        here: u64,
        frames: &mut F,
        out: &mut [i32],
    ) -> Result<(), Failed>
        requires channels { (channels ≡ 1) ⊎ (channels ≡ 2) }
        requires sources { All (HasSource (F.outside.channels frames.old) channels)
            (regions_of regions.now) }
        requires limits { All IsRegion (regions_of regions.now) }
        requires places { All (λ p. p < length regions.now) places.now }
        requires few { length places.now ≤ 256 }
        requires covers { All (CoversSpan here (length out.old / channels))
            (picked (regions_of regions.now) places.now) }
        requires whole { length out.old % channels ≡ 0 }
        requires room { length out.old ≤ self.old * channels }
        ensures told { F.outside.tells frames.old → OnOk result (out.new ≡ heard_block
            (sounds_of (F.outside.frames frames.old)) (picked (regions_of regions.now) places.now)
            channels here (length out.old)) }
        ensures room { self.new ≡ self.old }
        ensures read { IsRead F.outside F.rest frames.old frames.new result }
    {
        let sums = self.sums.as_mut_slice();
        mix(
            regions,
            places,
            channels,
            here,
            frames,
            &mut self.layer,
            sums,
            out,
        )
    }
}
