//! A block of a route's samples, or silence, which costs nothing.
ghost use Rattle.std.specs.Prelude.{◌≡◌, ◌≤◌, true, length, take, IfOk, IfSome, IfNone};
ghost use Rattle.mix_kernel.specs.Blocks.{scaled, scaled_evenly, clipped};
ghost use Rattle.mix_kernel.specs.Bounds.{AllAtMost};
ghost use Rattle.route_mix.specs.Blocks.{silence};

use mix_kernel::{clip_all, scale_block, scale_each};
use ses_io::NoMemory;
use ses_units::Gain;
use std::alloc::Global;
use std::marker::Model;

/// A block of samples. Where it is silent its memory may hold anything. Contracts see the list.
#[derive(Drop)]
pub(crate) struct Sound {
    samples: Vec<i32>,
    heard: bool,
}

impl Model for Sound {
    ghost use Rattle.std.specs.Prelude.{ℤ, List, length, if◌then◌else◌};
    ghost use Rattle.route_mix.specs.Blocks.{silence};

    ghost Value = { List ℤ };

    ghost view = { λ s. if s.heard then s.samples.items else silence (length s.samples.items) };
}

// Whether all samples are zero. The first one mostly tells; else all are looked at, many at once.
fn is_silent(samples: &[i32]) -> bool
    ensures { result ≡ true → samples.now ≡ silence (length samples.now) }
{
    let mut silent = samples.first() == Some(&0);
    if silent {
        for sample in samples {
            silent = silent & (*sample == 0);
        }
    }
    silent
}

impl Sound {
    /// So many samples of silence.
    pub(crate) fn new(alloc: Global, samples: usize) -> Result<Sound, NoMemory>
        ensures { IfOk result (λ s. s ≡ silence samples) }
    {
        Ok(Sound {
            samples: vec![in alloc; 0; samples]?,
            heard: false,
        })
    }

    /// It is silent.
    pub(crate) fn hush(&mut self)
        ensures { self.new ≡ silence (length self.old) }
    {
        self.heard = false;
    }

    /// How many samples it has.
    pub(crate) fn len(&self) -> usize
        ensures { result ≡ length self.now }
    {
        self.samples.len()
    }

    /// The samples, unless it is silent.
    pub(crate) fn heard(&self) -> Option<&[i32]>
        ensures samples { IfSome result (λ samples. samples.now ≡ self.now) }
        ensures silent { IfNone result (self.now ≡ silence (length self.now)) }
    {
        if self.heard {
            Some(self.samples.as_slice())
        } else {
            None
        }
    }

    /// The samples, of which those of silence are lent.
    pub(crate) fn shown<'a>(&'a self, zeros: &'a [i32]) -> &'a [i32]
        requires zeros { zeros.now ≡ silence (length zeros.now) }
        requires room { length self.now ≤ length zeros.now }
        ensures { result.now ≡ self.now }
    {
        if self.heard {
            self.samples.as_slice()
        } else {
            &zeros[..self.samples.len()]
        }
    }

    /// It is these samples, of which zeros are silence.
    pub(crate) fn put(&mut self, samples: &[i32])
        requires { length samples.now ≡ length self.old }
        ensures { self.new ≡ samples.now }
    {
        self.heard = !is_silent(samples);
        if self.heard {
            self.samples.copy_from_slice(samples);
        }
    }

    /// It is the clip of the sums.
    pub(crate) fn clip(&mut self, sums: &[i64])
        requires { length sums.now ≡ length self.old }
        ensures { self.new ≡ clipped sums.now }
    {
        clip_all(sums, self.samples.as_mut_slice());
        self.heard = true;
    }

    /// It is the samples scaled by one gain.
    pub(crate) fn scale(&mut self, samples: &[i32], gain: Gain)
        requires { length samples.now ≡ length self.old }
        ensures { self.new ≡ clipped (scaled_evenly samples.now gain) }
    {
        scale_block(samples, gain, self.samples.as_mut_slice());
        self.heard = true;
    }

    /// It is the samples scaled each by its own gain.
    pub(crate) fn scale_each(&mut self, samples: &[i32], gains: &[u32])
        requires samples { length samples.now ≡ length self.old }
        requires gains { length gains.now ≡ length self.old }
        requires quiet { AllAtMost 262144 gains.now }
        ensures { self.new ≡ clipped (scaled samples.now gains.now) }
    {
        scale_each(samples, gains, self.samples.as_mut_slice());
        self.heard = true;
    }
}
