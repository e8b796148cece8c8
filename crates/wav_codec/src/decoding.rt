//! The bytes of a file as samples at 24-bit scale.

ghost use Rattle.std.specs.Prelude.{◌≡◌, ◌⊎◌, ◌*◌, ◌/◌, [], ◌∷◌, length, All};
ghost use Rattle.sound_model.specs.Numbers.{sample_at};
ghost use Rattle.wav_codec.specs.Samples.{samples_of, IsInside};

use crate::fours::decode_24;
use crate::info::WavInfo;

/// Reads the samples of these bytes of a file with this head; the first begins with the first byte.
/// A sample of 8 bits counts from 128, and those of 16 and 24 bits are signed (RIFF WAVE). All come
/// out at 24-bit scale.
pub fn decode(info: &WavInfo, bytes: &[u8], out: &mut [i32])
    requires bits { (info.now.bits ≡ 8) ⊎ ((info.now.bits ≡ 16) ⊎ (info.now.bits ≡ 24)) }
    requires size { length bytes.now ≡ length out.old * (info.now.bits / 8) }
    ensures samples { out.new ≡ samples_of info.now.bits (length out.old) bytes.now }
    ensures range { All IsInside out.new }
{
    match info.bits {
        8 => decode_8(bytes, out),
        16 => decode_16(bytes, out),
        _ => decode_24(bytes, out),
    }
}

fn decode_8(bytes: &[u8], out: &mut [i32])
    requires { length bytes.now ≡ length out.old }
    ensures { out.new ≡ samples_of 8 (length out.old) bytes.now }
{
    for (i, byte) in bytes.iter().enumerate() {
        out[i] = sample_8(*byte);
    }
}

fn decode_16(bytes: &[u8], out: &mut [i32])
    requires { length bytes.now ≡ length out.old * 2 }
    ensures { out.new ≡ samples_of 16 (length out.old) bytes.now }
{
    let (pairs, _) = bytes.as_chunks::<2>();
    for (i, pair) in pairs.iter().enumerate() {
        out[i] = sample_16(*pair);
    }
}

fn sample_8(byte: u8) -> i32
    ensures { result ≡ sample_at 8 (byte ∷ []) }
{
    (i32::from(byte) - 128) * 65_536
}

fn sample_16(pair: [u8; 2]) -> i32
    ensures { result ≡ sample_at 16 pair }
{
    i32::from(i16::from_le_bytes(pair)) * 256
}
