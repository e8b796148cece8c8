//! One source in memory: its channels, and its samples frame by frame, channels side by side.
ghost use Rattle.std.specs.Prelude.{◌≡◌, ◌+◌, ◌/◌, ◌%◌, length, All, IfSome, is_some};
ghost use Rattle.std.specs.List.{list_all};
ghost use Rattle.session_model.specs.Frames.{sample_of, interleaved, IsSample};
ghost use Rattle.session_model.specs.MemFrames.{is_sample, is_sound, frames_of};

use std::marker::Model;

/// The frames of a source. Samples are at 24-bit scale.
#[derive(Debug, Drop)]
pub struct MemSound {
    channels: u16,
    samples: Vec<i32>,
}

impl Model for MemSound {
    ghost use Rattle.std.specs.Prelude.{IsTrue};
    ghost use Rattle.session_model.specs.MemFrames.{Sound, is_sound};

    ghost Value = { Sound };

    ghost view = { λ s. record { channels = s.channels; samples = s.samples.items } };

    ghost invariant = { λ s. IsTrue (is_sound s.channels s.samples.items) };
}

fn is_sample(v: i32) -> bool
    ensures { result ≡ is_sample v }
{
    -8_388_608 <= v && v <= 8_388_607
}

fn are_samples(samples: &[i32]) -> bool
    ensures { result ≡ list_all is_sample samples.now }
{
    samples.iter().all(|v| is_sample(*v))
}

impl MemSound {
    /// A source of one channel or two, of whole frames whose samples 24 bits hold; None of others.
    pub fn new(channels: u16, samples: Vec<i32>) -> Option<MemSound>
        ensures sound { IfSome result
            (λ s. s ≡ record { channels = channels; samples = samples.items }) }
        ensures judged { is_some result ≡ is_sound channels samples.items }
    {
        if channels < 1 || channels > 2 || !samples.len().is_multiple_of(channels as usize) {
            return None;
        }
        if !are_samples(&samples) {
            return None;
        }
        Some(MemSound { channels, samples })
    }

    // The k-th sample from a frame on, 0 past the end.
    fn sample(&self, from: u64, k: usize) -> i32
        ensures value { result ≡ sample_of (frames_of self.now)
            (from + k / self.now.channels) (k % self.now.channels) }
        ensures range { IsSample result }
    {
        let channels = self.channels as usize;
        let samples = self.samples.as_slice();
        let frame = from.saturating_add((k / channels) as u64);
        if frame >= (samples.len() / channels) as u64 {
            return 0;
        }
        samples[frame as usize * channels + k % channels]
    }

    /// Fills `out` with samples from a frame on, 0 past the end.
    pub(crate) fn fill(&self, from: u64, out: &mut [i32])
        ensures told { out.new ≡ interleaved (sample_of (frames_of self.now))
            self.now.channels from (length out.new) }
        ensures range { All IsSample out.new }
    {
        for (k, v) in out.iter_mut().enumerate() {
            *v = self.sample(from, k);
        }
    }
}
