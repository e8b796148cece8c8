//! One region over a span that it covers: its frames are read, scaled, faded, and laid over the
//! sums below it.
ghost use Rattle.std.specs.Prelude.{◌≡◌, ◌+◌, ◌*◌, ◌/◌, ◌%◌, ◌^◌, ◌≤◌, ◌⊎◌, pos, length, replicate, if◌then◌else◌, All, IfOk, OnOk};
ghost use Rattle.sound_model.specs.Regions.{fade};
ghost use Rattle.session_model.specs.Frames.{sounds_of, IsSample};
ghost use Rattle.session_model.specs.Region.{region_of, IsRegion};
ghost use Rattle.mix_kernel.specs.Blocks.{scaled_evenly, summed, laid_over, spread};
ghost use Rattle.mix_kernel.specs.Bounds.{AllNear, AllAtMost, GoesOn};
ghost use Rattle.playlist_layers.specs.Blocks.{LaysOver};
ghost use Rattle.playlist_layers.specs.Reads.{HasSource, IsRead};
ghost use Rattle.playlist_layers.specs.Spans.{CoversSpan};

use crate::heard::is_full;
use mix_kernel::{add_even, lay_over, scale_block, spread};
use ramp_fixed::fade_block;
use ses_io::{Failed, NoMemory};
use session_model::{Frames, Region};
use std::alloc::Global;
use std::marker::Model;

const UNITY: u32 = 65_536;

/// What one layer takes: its samples as they are read and as they are scaled, and its fade values.
/// Contracts see how many samples it has room for.
#[derive(Drop)]
pub(crate) struct LayerRoom {
    samples: Vec<i32>,
    scaled: Vec<i32>,
    gains: Vec<u32>,
}

impl Model for LayerRoom {
    ghost use Rattle.std.specs.Prelude.{◌≡◌, ℕ, ◌*◌, ◌^◌, ◌<◌, length};

    ghost Value = { ℕ };

    ghost view = { λ l. length l.samples.items };

    ghost invariant = { λ l. record {
      scaled : length l.scaled.items ≡ length l.samples.items;
      gains : length l.gains.items ≡ length l.samples.items;
    } };
}

// The fade values of so many frames of a region from one on, each at each channel of its frame.
fn fade_gains(region: &Region, channels: u16, first: u64, count: usize, gains: &mut [u32])
    requires limits { IsRegion (region_of region.now) }
    requires channels { (channels ≡ 1) ⊎ (channels ≡ 2) }
    requires within { first + count ≤ region.now.length }
    requires whole { length gains.old ≡ count * channels }
    ensures gains { gains.new ≡ spread (λ i. fade (region_of region.now) (first + i)) channels
        (length gains.old) }
    ensures quiet { AllAtMost 65536 gains.new }
{
    fade_block(
        region.length,
        region.fade_in,
        region.fade_out,
        region.shape_in,
        region.shape_out,
        first,
        &mut gains[..count],
    );
    spread(gains, channels);
}

// Lays the samples of a region over sums, at its gain and at fade values.
fn lay_faded(region: &Region, samples: &[i32], gains: &[u32], scaled: &mut [i32], sums: &mut [i64])
    requires limits { IsRegion (region_of region.now) }
    requires samples { length samples.now ≡ length sums.old }
    requires gains { length gains.now ≡ length sums.old }
    requires scaled { length scaled.old ≡ length sums.old }
    requires range { All IsSample samples.now }
    requires quiet { AllAtMost 65536 gains.now }
    requires near { AllNear (2 ^ 44) sums.old }
    ensures sums { sums.new ≡ laid_over sums.old (scaled_evenly samples.now region.now.gain)
        gains.now region.now.opaque }
    ensures near { GoesOn (2 ^ 33) sums.old sums.new }
{
    if region.gain.value() == UNITY {
        lay_over(sums, samples, gains, region.opaque);
    } else {
        scale_block(samples, region.gain, scaled);
        lay_over(sums, scaled, gains, region.opaque);
    }
}

// What a region that is heard in full leaves of the sums below it.
fn leave(opaque: bool, sums: &mut [i64])
    ensures sums { sums.new ≡ (if opaque then replicate (length sums.old) (pos 0) else sums.old) }
    ensures near { GoesOn 0 sums.old sums.new }
{
    if opaque {
        sums.fill(0);
    }
}

// Lays the samples of a region over sums, at its gain.
fn lay_full(region: &Region, samples: &[i32], sums: &mut [i64])
    requires limits { IsRegion (region_of region.now) }
    requires samples { length samples.now ≡ length sums.old }
    requires near { AllNear (2 ^ 44) sums.old }
    ensures sums { sums.new ≡ summed
        (if region.now.opaque then replicate (length sums.old) (pos 0) else sums.old)
        (scaled_evenly samples.now region.now.gain) }
    ensures near { GoesOn (2 ^ 33) sums.old sums.new }
{
    leave(region.opaque, sums);
    add_even(sums, samples, region.gain);
}

// Lays a region over the sums below it, over a span that it covers from a position on.
fn lay<F: Frames>(
    region: &Region,
    channels: u16,
    here: u64,
    frames: &mut F,
    samples: &mut [i32],
    scaled: &mut [i32],
    gains: &mut [u32],
    sums: &mut [i64],
) -> Result<(), Failed>
    requires channels { (channels ≡ 1) ⊎ (channels ≡ 2) }
    requires source { HasSource (F.outside.channels frames.old) channels (region_of region.now) }
    requires limits { IsRegion (region_of region.now) }
    requires covers { CoversSpan here (length sums.old / channels)
        (region_of region.now) }
    requires whole { length sums.old % channels ≡ 0 }
    requires samples { length sums.old ≤ length samples.old }
    requires scaled { length sums.old ≤ length scaled.old }
    requires gains { length sums.old ≤ length gains.old }
    requires near { AllNear (2 ^ 44) sums.old }
    ensures told { F.outside.tells frames.old → OnOk result (LaysOver
        (sounds_of (F.outside.frames frames.old)) (region_of region.now)
        channels here sums.old sums.new) }
    ensures near { OnOk result (GoesOn (2 ^ 33) sums.old sums.new) }
    ensures read { IsRead F.outside F.rest frames.old frames.new result }
{
    let n = sums.len();
    let count = n / channels as usize;
    let first = here - region.at;
    let samples = &mut samples[..n];
    let scaled = &mut scaled[..n];
    let gains = &mut gains[..n];
    frames.frames(region.source, region.start + first, samples)?;
    if is_full(region, here, count as u64) {
        lay_full(region, samples, sums);
    } else {
        fade_gains(region, channels, first, count, gains);
        lay_faded(region, samples, gains, scaled, sums);
    }
    Ok(())
}

impl LayerRoom {
    /// Room for so many samples.
    pub(crate) fn new(alloc: Global, samples: usize) -> Result<LayerRoom, NoMemory>
        ensures { IfOk result (λ l. l ≡ samples) }
    {
        Ok(LayerRoom {
            samples: vec![in alloc; 0; samples]?,
            scaled: vec![in alloc; 0; samples]?,
            gains: vec![in alloc; 0; samples]?,
        })
    }

    /// Lays a region over the sums below it, over a span that it covers from a position on. It is
    /// read once.
    pub(crate) fn lay<F: Frames>(
        &mut self,
        region: &Region,
        channels: u16,
        here: u64,
        frames: &mut F,
        sums: &mut [i64],
    ) -> Result<(), Failed>
        requires channels { (channels ≡ 1) ⊎ (channels ≡ 2) }
        requires source { HasSource (F.outside.channels frames.old) channels
            (region_of region.now) }
        requires limits { IsRegion (region_of region.now) }
        requires covers { CoversSpan here (length sums.old / channels)
            (region_of region.now) }
        requires whole { length sums.old % channels ≡ 0 }
        requires room { length sums.old ≤ self.old }
        requires near { AllNear (2 ^ 44) sums.old }
        ensures told { F.outside.tells frames.old → OnOk result (LaysOver
            (sounds_of (F.outside.frames frames.old)) (region_of region.now)
            channels here sums.old sums.new) }
        ensures near { OnOk result (GoesOn (2 ^ 33) sums.old sums.new) }
        ensures room { self.new ≡ self.old }
        ensures read { IsRead F.outside F.rest frames.old frames.new result }
    {
        lay(
            region,
            channels,
            here,
            frames,
            self.samples.as_mut_slice(),
            self.scaled.as_mut_slice(),
            self.gains.as_mut_slice(),
            sums,
        )
    }
}
