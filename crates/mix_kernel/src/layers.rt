//! A layer of faded samples over the sums below it.
ghost use Rattle.std.specs.Prelude.{◌≡◌, ◌^◌, length, true};
ghost use Rattle.mix_kernel.specs.Blocks.{laid_over};
ghost use Rattle.mix_kernel.specs.Bounds.{AllNear, AllAtMost, GoesOn};

use crate::item::covered;
use crate::sums::add_scaled;

/// Lays samples over sums, each at its fade value. Below an opaque layer a sum is scaled by what
/// the fade leaves of unity; a transparent layer is added. A sum goes at most 2^31 on.
pub fn lay_over(sums: &mut [i64], samples: &[i32], fades: &[u32], opaque: bool)
    requires samples { length samples.now ≡ length sums.old }
    requires fades { length fades.now ≡ length sums.old }
    requires near { AllNear (2 ^ 44) sums.old }
    requires quiet { AllAtMost 65536 fades.now }
    ensures sums { sums.new ≡ laid_over sums.old samples.now fades.now opaque }
    ensures near { GoesOn (2 ^ 31) sums.old sums.new }
{
    if opaque {
        cover(sums, samples, fades);
    } else {
        add_scaled(sums, samples, fades);
    }
}

fn cover(sums: &mut [i64], samples: &[i32], fades: &[u32])
    requires samples { length samples.now ≡ length sums.old }
    requires fades { length fades.now ≡ length sums.old }
    requires near { AllNear (2 ^ 44) sums.old }
    requires quiet { AllAtMost 65536 fades.now }
    ensures sums { sums.new ≡ laid_over sums.old samples.now fades.now true }
    ensures near { GoesOn (2 ^ 31) sums.old sums.new }
{
    for (i, s) in samples.iter().enumerate() {
        sums[i] = covered(sums[i], *s, fades[i]);
    }
}
