//! Sums that a block of samples joins, each scaled by its own gain or all by one.
ghost use Rattle.std.specs.Prelude.{◌≡◌, ℕ, ◌*◌, ◌^◌, length};
ghost use Rattle.mix_kernel.specs.Blocks.{scaled, scaled_evenly, summed};
ghost use Rattle.mix_kernel.specs.Bounds.{AllNear, AllAtMost, GoesOn};

use crate::item::added;
use ses_units::Gain;

/// Adds samples to sums, each scaled by its own gain and rounded down. A sum goes at most 2^15 times
/// the loudest gain on, which is 2^33 of any gains and 2^31 of those up to unity.
pub fn add_scaled(sums: &mut [i64], samples: &[i32], gains: &[u32])
    requires samples { length samples.now ≡ length sums.old }
    requires gains { length gains.now ≡ length sums.old }
    requires near { AllNear (2 ^ 44) sums.old }
    requires quiet { AllAtMost 262144 gains.now }
    ensures sums { sums.new ≡ summed sums.old (scaled samples.now gains.now) }
    ensures near { (m : ℕ) → AllAtMost m gains.now → GoesOn (m * 2 ^ 15) sums.old sums.new }
{
    for (i, s) in samples.iter().enumerate() {
        sums[i] = added(sums[i], *s, gains[i]);
    }
}

/// Adds samples to sums, all scaled by one gain and rounded down. A sum goes at most 2^15 times the
/// gain on.
pub fn add_even(sums: &mut [i64], samples: &[i32], gain: Gain)
    requires samples { length samples.now ≡ length sums.old }
    requires near { AllNear (2 ^ 48) sums.old }
    ensures sums { sums.new ≡ summed sums.old (scaled_evenly samples.now gain) }
    ensures near { GoesOn (gain * 2 ^ 15) sums.old sums.new }
{
    let gain = gain.value();
    for (i, s) in samples.iter().enumerate() {
        sums[i] = added(sums[i], *s, gain);
    }
}
