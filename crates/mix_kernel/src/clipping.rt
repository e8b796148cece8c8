//! Sums as samples of 32 bits, a block scaled by one gain, and samples as a file holds them.
ghost use Rattle.std.specs.Prelude.{◌≡◌, length};
ghost use Rattle.ses_units.specs.Bits.{bits_of};
ghost use Rattle.mix_kernel.specs.Blocks.{scaled, scaled_evenly, clipped, filed};
ghost use Rattle.mix_kernel.specs.Bounds.{AllAtMost};

use crate::item::clipped_sample;
use ses_units::{Bits, Gain, clip, file_sample};

/// Writes sums as samples, each the nearest number that 32 bits hold.
pub fn clip_all(sums: &[i64], out: &mut [i32])
    requires { length sums.now ≡ length out.old }
    ensures { out.new ≡ clipped sums.now }
{
    for (i, sum) in sums.iter().enumerate() {
        out[i] = clip(*sum);
    }
}

/// Writes samples scaled by one gain, each rounded down and clipped.
pub fn scale_block(samples: &[i32], gain: Gain, out: &mut [i32])
    requires { length samples.now ≡ length out.old }
    ensures { out.new ≡ clipped (scaled_evenly samples.now gain) }
{
    let gain = gain.value();
    for (i, s) in samples.iter().enumerate() {
        out[i] = clipped_sample(*s, gain);
    }
}

/// Writes samples scaled each by its own gain, rounded down and clipped.
pub fn scale_each(samples: &[i32], gains: &[u32], out: &mut [i32])
    requires samples { length samples.now ≡ length out.old }
    requires gains { length gains.now ≡ length out.old }
    requires quiet { AllAtMost 262144 gains.now }
    ensures { out.new ≡ clipped (scaled samples.now gains.now) }
{
    for (i, s) in samples.iter().enumerate() {
        out[i] = clipped_sample(*s, gains[i]);
    }
}

/// Writes samples as a file of these bits holds them: rounded down to 16 bits, and bounded.
pub fn clip_file(samples: &[i32], bits: Bits, out: &mut [i32])
    requires { length samples.now ≡ length out.old }
    ensures { out.new ≡ filed (bits_of bits) samples.now }
{
    for (i, s) in samples.iter().enumerate() {
        out[i] = file_sample(*s, bits);
    }
}
