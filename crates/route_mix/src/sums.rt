//! What a route is fed in a block, summed up; nothing costs nothing.
ghost use Rattle.std.specs.Prelude.{◌≡◌, ◌*◌, ◌^◌, ◌≤◌, length, if◌then◌else◌, IfOk};
ghost use Rattle.mix_kernel.specs.Blocks.{scaled_evenly, sided, summed, clipped};
ghost use Rattle.mix_kernel.specs.Bounds.{AllNear, GoesOn};
ghost use Rattle.route_mix.specs.Blocks.{silence};

use crate::sound::Sound;
use mix_kernel::{add_even, add_sides};
use ses_io::NoMemory;
use ses_units::Gain;
use std::alloc::Global;
use std::marker::Model;

/// The sums of a block. Until something is fed they are 0, whatever the memory holds. Contracts see
/// their list.
#[derive(Drop)]
pub(crate) struct Sums {
    sums: Vec<i64>,
    fed: bool,
}

impl Model for Sums {
    ghost use Rattle.std.specs.Prelude.{ℤ, List, length, if◌then◌else◌};
    ghost use Rattle.route_mix.specs.Blocks.{silence};

    ghost Value = { List ℤ };

    ghost view = { λ s. if s.fed then s.sums.items else silence (length s.sums.items) };
}

// Sums to be added to, which are 0 where nothing was fed.
fn begin(sums: &mut [i64], fed: bool)
    ensures { sums.new ≡ (if fed then sums.old else silence (length sums.old)) }
{
    if !fed {
        sums.fill(0);
    }
}

impl Sums {
    /// So many sums of nothing.
    pub(crate) fn new(alloc: Global, samples: usize) -> Result<Sums, NoMemory>
        ensures { IfOk result (λ s. s ≡ silence samples) }
    {
        Ok(Sums {
            sums: vec![in alloc; 0; samples]?,
            fed: false,
        })
    }

    /// Nothing was fed.
    pub(crate) fn clear(&mut self)
        ensures { self.new ≡ silence (length self.old) }
    {
        self.fed = false;
    }

    /// Feeds samples, each scaled by the gain.
    pub(crate) fn add(&mut self, samples: &[i32], gain: Gain)
        requires samples { length samples.now ≡ length self.old }
        requires near { AllNear (2 ^ 48) self.old }
        ensures sums { self.new ≡ summed self.old (scaled_evenly samples.now gain) }
        ensures near { GoesOn (gain * 2 ^ 15) self.old self.new }
        ensures gain { gain ≤ 262144 }
    {
        let sums = self.sums.as_mut_slice();
        begin(sums, self.fed);
        add_even(sums, samples, gain);
        self.fed = true;
    }

    /// Feeds samples of one channel to sums of two, through the gain and one more for each side.
    pub(crate) fn add_sides(&mut self, samples: &[i32], gain: Gain, left: Gain, right: Gain)
        requires samples { length self.old ≡ length samples.now * 2 }
        requires near { AllNear (2 ^ 48) self.old }
        ensures sums { self.new ≡ summed self.old (sided gain left right samples.now) }
        ensures near { GoesOn (2 ^ 35) self.old self.new }
    {
        let sums = self.sums.as_mut_slice();
        begin(sums, self.fed);
        add_sides(sums, samples, gain, left, right);
        self.fed = true;
    }

    /// Gives the clip of the sums, which is silence where nothing was fed.
    pub(crate) fn give(&self, out: &mut Sound)
        requires { length out.old ≡ length self.now }
        ensures { out.new ≡ clipped self.now }
    {
        if self.fed {
            out.clip(self.sums.as_slice());
        } else {
            out.hush();
        }
    }
}
