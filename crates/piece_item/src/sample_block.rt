//! A block of samples, which keeps whether it was made silence.
ghost use Rattle.std.specs.Prelude.{◌≡◌, ◌↔◌, ◌^◌, ◌<◌, ◌≤◌, IsTrue, length, IfOk};
ghost use Rattle.std.specs.Borrow.{sem, Lends, Array, i32};
ghost use Rattle.ses_io.specs.FixedList.{with_items};
ghost use Rattle.piece_item.specs.Silence.{zeros, silence_of};
ghost use Rattle.piece_item.specs.contracts.sample_block.SampleBlock.{the_row};

use crate::silence::silence;
use ses_io::NoMemory;
use session_model::Samples;
use std::alloc::Global;
use std::marker::Model;

/// One block of samples, frame by frame, channels side by side (own). Contracts see the list.
/// Where it was made silence and nobody was lent its memory since, it isn't written or read again.
#[derive(Drop)]
pub struct SampleBlock {
    samples: Samples,
    /// Whether it is known that all are 0.
    hushed: bool,
}

impl Model for SampleBlock {
    ghost use Rattle.std.specs.Prelude.{◌≡◌, ℤ, true, length};
    ghost use Rattle.ses_io.specs.FixedList.{Listed};
    ghost use Rattle.piece_item.specs.Silence.{zeros};

    ghost Value = { Listed ℤ };

    ghost view = { λ b. b.samples };

    ghost invariant = { λ b. b.hushed ≡ true
        → b.samples.items ≡ zeros (length b.samples.items) };
}

// So many samples are looked at before the next ones are.
const CHUNK: usize = 64;

// Whether all are 0; all are looked at, many at once.
fn chunk_is_zero(samples: &[i32]) -> bool
    ensures { IsTrue result ↔ (samples.now ≡ zeros (length samples.now)) }
{
    let mut silent = true;
    for sample in samples {
        silent = silent & (*sample == 0);
    }
    silent
}

// Whether all are 0; nothing is looked at behind the first chunk that sounds.
fn all_zero(samples: &[i32]) -> bool
    ensures { IsTrue result ↔ (samples.now ≡ zeros (length samples.now)) }
{
    let whole = samples.len() / CHUNK;
    for k in 0..whole {
        if !chunk_is_zero(&samples[CHUNK * k..CHUNK * k + CHUNK]) {
            return false;
        }
    }
    chunk_is_zero(&samples[CHUNK * whole..])
}

impl SampleBlock {
    /// A block of so many samples, all of them 0.
    pub(crate) fn new(alloc: Global, samples: u32) -> Result<SampleBlock, NoMemory>
        ensures { IfOk result (λ b. b ≡ silence_of samples) }
    {
        Ok(SampleBlock {
            samples: silence(alloc, samples)?,
            hushed: true,
        })
    }

    /// How many samples it has.
    pub fn len(&self) -> usize
        ensures len { result ≡ length self.now.items }
        ensures within { result ≤ self.now.room }
        ensures small { self.now.room < 2 ^ 32 }
    {
        self.samples.len()
    }

    /// The samples.
    pub fn as_slice(&self) -> &[i32]
        ensures { result.now ≡ self.now.items }
    {
        self.samples.as_slice()
    }

    /// The samples, to be written in place.
    pub(crate) fn as_mut_slice(&mut self) -> &mut [i32]
        ensures* writes_back { sem 𝓛
            (Lends the_row (Array i32 0) self.entry result (with_items self.old)) }
        ensures items { result.now ≡ self.old.items }
    {
        self.hushed = false;
        self.samples.as_mut_slice()
    }

    /// Makes all samples 0.
    pub(crate) fn hush(&mut self)
        ensures { self.new ≡ record self.old { items = zeros (length self.old.items) } }
    {
        if !self.hushed {
            self.samples.as_mut_slice().fill(0);
            self.hushed = true;
        }
    }

    /// Whether all samples are 0.
    pub fn is_silent(&self) -> bool
        ensures { IsTrue result ↔ (self.now.items ≡ zeros (length self.now.items)) }
    {
        self.hushed || all_zero(self.samples.as_slice())
    }
}
