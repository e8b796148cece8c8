//! Samples written in 24 bits, sixteen at once by vectors.

ghost use Rattle.std.specs.Prelude.{◌≡◌, ◌+◌, ◌*◌, ◌≤◌, ◌++◌, length, take, drop};
ghost use Rattle.sound_model.specs.Numbers.{sample_bytes, file_sample, twos_complement};
ghost use Rattle.sound_model.specs.Wav.{sound_bytes};
ghost use Rattle.wav_codec.specs.Samples.{wide_bytes};

use ses_units::{Bits, file_sample};
use std::simd::{u8x16, u32x4};

/// Writes samples in 24 bits: by sixteens, which fill three vectors of bytes, and then one by one.
pub(crate) fn encode_24(samples: &[i32], out: &mut [u8])
    requires { length out.old ≡ length samples.now * 3 }
    ensures { out.new ≡ sound_bytes 24 samples.now }
{
    let sixteens = samples.len() / 16;
    for i in 0..sixteens {
        put_sixteen(samples, 16 * i, out);
    }
    encode_24_singly(&samples[16 * sixteens..], &mut out[48 * sixteens..]);
}

// Writes samples in 24 bits one by one.
fn encode_24_singly(samples: &[i32], out: &mut [u8])
    requires { length out.old ≡ length samples.now * 3 }
    ensures { out.new ≡ sound_bytes 24 samples.now }
{
    for (i, v) in samples.iter().enumerate() {
        let [low, middle, high] = bytes_24(*v);
        out[3 * i] = low;
        out[3 * i + 1] = middle;
        out[3 * i + 2] = high;
    }
}

// Writes the sixteen samples from a place on. The bytes before them stay.
fn put_sixteen(samples: &[i32], at: usize, out: &mut [u8])
    requires here { at + 16 ≤ length samples.now }
    requires room { length out.old ≡ length samples.now * 3 }
    ensures bytes { take (at * 3 + 48) out.new
        ≡ take (at * 3) out.old ++ sound_bytes 24 (take 16 (drop at samples.now)) }
    ensures length { length out.new ≡ length out.old }
{
    let (first, second, third) = sixteen_samples(samples, at);
    first.copy_to_slice(&mut out[3 * at..3 * at + 16]);
    second.copy_to_slice(&mut out[3 * at + 16..3 * at + 32]);
    third.copy_to_slice(&mut out[3 * at + 32..3 * at + 48]);
}

// The bytes of the sixteen samples from a place on, as three times sixteen.
fn sixteen_samples(samples: &[i32], at: usize) -> (u8x16, u8x16, u8x16)
    requires { at + 16 ≤ length samples.now }
    ensures { result.0 ++ result.1 ++ result.2 ≡ sound_bytes 24 (take 16 (drop at samples.now)) }
{
    let a = four_wide(samples, at);
    let b = four_wide(samples, at + 4);
    let c = four_wide(samples, at + 8);
    let d = four_wide(samples, at + 12);
    let first = a.shuffle(b, [0, 1, 2, 4, 5, 6, 8, 9, 10, 12, 13, 14, 16, 17, 18, 20]);
    let second = b.shuffle(
        c,
        [5, 6, 8, 9, 10, 12, 13, 14, 16, 17, 18, 20, 21, 22, 24, 25],
    );
    let third = c.shuffle(
        d,
        [
            10, 12, 13, 14, 16, 17, 18, 20, 21, 22, 24, 25, 26, 28, 29, 30,
        ],
    );
    (first, second, third)
}

// The four samples from a place on, bounded to 24 bits, in four bytes each.
fn four_wide(samples: &[i32], at: usize) -> u8x16
    requires { at + 4 ≤ length samples.now }
    ensures { result ≡ wide_bytes (take 4 (drop at samples.now)) }
{
    let lanes = [
        bounded(samples[at]),
        bounded(samples[at + 1]),
        bounded(samples[at + 2]),
        bounded(samples[at + 3]),
    ];
    u32x4::from_array(lanes).to_le_bytes()
}

// What 24 bits hold of a sample, in 32 bits of two's complement.
fn bounded(v: i32) -> u32
    ensures { result ≡ twos_complement 32 (file_sample 24 v) }
{
    file_sample(v, Bits::B24).cast_unsigned()
}

fn bytes_24(v: i32) -> [u8; 3]
    ensures { result ≡ sample_bytes 24 v }
{
    let [low, middle, high, _] = file_sample(v, Bits::B24).to_le_bytes();
    [low, middle, high]
}
