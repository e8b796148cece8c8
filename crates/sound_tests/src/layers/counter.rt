//! Sources in memory that count how often they are read.
ghost use Rattle.std.specs.Prelude.{◌≡◌, ◌∷◌, [], ⊤, List, IfSome};
ghost use Rattle.session_model.specs.MemFrames.{channels_in};

use ses_io::Failed;
use session_model::{Frames, MemFrames, MemSound};
use std::alloc::Global;

/// The sources, and the reads so far.
#[derive(Drop)]
pub(super) struct Counter {
    pub(super) frames: MemFrames,
    pub(super) reads: u32,
}

impl Frames for Counter {
    ghost use Rattle.std.specs.Prelude.{⊤, List};
    ghost use Rattle.session_model.specs.MemFrames.{Sound, channels_in, told_in};

    ghost outside = { record {
      tells = λ c. ⊤;
      channels = λ c. channels_in c.frames.sources;
      frames = λ c. told_in c.frames.sources;
      faults = λ c. c.frames.faults;
    } };

    ghost Rest = { List Sound };

    ghost rest = { λ c. c.frames.sources };

    fn frames(&mut self, source: u32, from: u64, out: &mut [i32]) -> Result<(), Failed> {
        self.reads = self.reads.saturating_add(1);
        self.frames.frames(source, from, out)
    }
}

// A source of these samples, None where they make none.
fn sound(alloc: Global, channels: u16, samples: &[i32]) -> Option<MemSound>
    ensures { IfSome result (λ s. s.channels ≡ channels) }
{
    MemSound::new(channels, samples.to_vec(alloc).ok()?)
}

/// Three sources of these samples, which weren't read so far.
pub(super) fn counting(alloc: Global, channels: u16, sounds: [&[i32]; 3]) -> Option<Counter>
    ensures { IfSome result
        (λ c. channels_in c.frames.sources ≡ channels ∷ channels ∷ channels ∷ []) }
{
    let mut list = Vec::new(alloc);
    list.push(sound(alloc, channels, sounds[0])?).ok()?;
    list.push(sound(alloc, channels, sounds[1])?).ok()?;
    list.push(sound(alloc, channels, sounds[2])?).ok()?;
    Some(Counter {
        frames: MemFrames::new(list, Vec::new(alloc)),
        reads: 0,
    })
}
