//! Samples as the bytes of a file: floored to its scale, bounded, and written low byte first.

ghost use Rattle.std.specs.Prelude.{◌≡◌, ◌*◌, ◌/◌, length};
ghost use Rattle.ses_units.specs.Bits.{bits_of};
ghost use Rattle.sound_model.specs.Numbers.{sample_bytes};
ghost use Rattle.sound_model.specs.Wav.{sound_bytes};

use crate::sixteens::encode_24;
use ses_units::{Bits, file_sample};

/// Writes the bytes that a file of these bits has of these samples, which are at 24-bit scale.
/// What a file can't hold is bounded.
pub fn encode(samples: &[i32], bits: Bits, out: &mut [u8])
    requires { length out.old ≡ length samples.now * (bits_of bits / 8) }
    ensures { out.new ≡ sound_bytes (bits_of bits) samples.now }
{
    match bits {
        Bits::B16 => encode_16(samples, out),
        Bits::B24 => encode_24(samples, out),
    }
}

fn encode_16(samples: &[i32], out: &mut [u8])
    requires { length out.old ≡ length samples.now * 2 }
    ensures { out.new ≡ sound_bytes 16 samples.now }
{
    for (i, v) in samples.iter().enumerate() {
        let [low, high] = bytes_16(*v);
        out[2 * i] = low;
        out[2 * i + 1] = high;
    }
}

fn bytes_16(v: i32) -> [u8; 2]
    ensures { result ≡ sample_bytes 16 v }
{
    (file_sample(v, Bits::B16) as i16).to_le_bytes()
}
