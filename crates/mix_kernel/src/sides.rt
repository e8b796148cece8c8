//! Sums of two channels that a block of one joins, through a gain and one more for each side.
ghost use Rattle.std.specs.Prelude.{◌≡◌, ◌*◌, ◌^◌, length};
ghost use Rattle.mix_kernel.specs.Blocks.{sided, summed};
ghost use Rattle.mix_kernel.specs.Bounds.{AllNear, GoesOn};

use crate::item::joined;
use ses_units::Gain;

/// Adds the samples of one channel to sums of two, frame by frame: each is scaled by the gain and rounded down, and
/// then scaled by `left` into the first channel and by `right` into the second. A sum goes at most 2^35 on.
pub fn add_sides(sums: &mut [i64], samples: &[i32], gain: Gain, left: Gain, right: Gain)
    requires samples { length sums.old ≡ length samples.now * 2 }
    requires near { AllNear (2 ^ 48) sums.old }
    ensures sums { sums.new ≡ summed sums.old (sided gain left right samples.now) }
    ensures near { GoesOn (2 ^ 35) sums.old sums.new }
{
    let gain = gain.value();
    let left = left.value();
    let right = right.value();
    for (i, s) in samples.iter().enumerate() {
        sums[2 * i] = joined(sums[2 * i], *s, gain, left);
        sums[2 * i + 1] = joined(sums[2 * i + 1], *s, gain, right);
    }
}
