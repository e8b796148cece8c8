//! The numbers of a sample: floor(s * g / 65,536), and what a file of 16 or 24 bits holds of it.
ghost use Rattle.std.specs.Prelude.{◌≡◌, ◌-◌, ◌^◌, pos, neg_ℤ, ◌≤ℤ◌};
ghost use Rattle.sound_model.specs.Numbers as sound;
ghost use Rattle.ses_units.specs.Bits.{bits_of};

use crate::bits::Bits;
use crate::gain::Gain;

/// A sample, or a sum of samples, scaled by a gain and rounded down (own).
pub fn scale(s: i64, g: Gain) -> i64
    requires low { neg_ℤ (pos (2 ^ 44)) ≤ℤ s }
    requires high { s ≤ℤ pos (2 ^ 44) }
    ensures value { result ≡ sound.scale s g }
    ensures low { neg_ℤ (pos (2 ^ 46)) ≤ℤ result }
    ensures high { result ≤ℤ pos (2 ^ 46) }
{
    (s * i64::from(g.value())) >> 16
}

/// The nearest number that 32 bits hold (own).
pub fn clip(s: i64) -> i32
    ensures { result ≡ sound.clip s }
{
    s.clamp(-2_147_483_648, 2_147_483_647) as i32
}

/// What a file of so many bits holds of a sample at 24-bit scale: rounded down to 16 bits, and
/// bounded to what the bits hold (own).
pub fn file_sample(v: i32, bits: Bits) -> i32
    ensures value { result ≡ sound.file_sample (bits_of bits) v }
    ensures low { neg_ℤ (pos (2 ^ (bits_of bits - 1))) ≤ℤ result }
    ensures high { result ≤ℤ pos (2 ^ (bits_of bits - 1) - 1) }
{
    match bits {
        Bits::B16 => (v >> 8).clamp(-32_768, 32_767),
        Bits::B24 => v.clamp(-8_388_608, 8_388_607),
    }
}
