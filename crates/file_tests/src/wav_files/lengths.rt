//! Samples of 24 bits at lengths around vectors of four and of sixteen, with extreme values. What lies past them stays.
ghost use Rattle.std.specs.Prelude.{◌≤◌};

use super::mono;
use ses_units::Bits;
use wav_codec::{decode, encode};

const LENGTHS: [usize; 12] = [0, 1, 4, 5, 7, 8, 9, 15, 16, 17, 33, 4096];

const SAMPLES: [i32; 5] = [-8_388_608, 8_388_607, -1, 256, 1_193_046];

// The same samples, the low byte first.
const BYTES: [[u8; 3]; 5] = [
    [0, 0, 128],
    [255, 255, 127],
    [255, 255, 255],
    [0, 1, 0],
    [86, 52, 18],
];

// Samples that 24 bits don't hold, and one that they do.
const LOUD: [i32; 5] = [i32::MIN, i32::MAX, -8_388_609, 8_388_608, 65_536];

// The nearest that they hold.
const LOUD_BYTES: [[u8; 3]; 5] = [
    [0, 0, 128],
    [255, 255, 127],
    [0, 0, 128],
    [255, 255, 127],
    [0, 0, 1],
];

fn bytes_of() -> [u8; 12_288] {
    let mut bytes = [0; 12_288];
    for i in 0..12_288usize {
        bytes[i] = BYTES[i / 3 % 5][i % 3];
    }
    bytes
}

// Whether the first n are those samples, one after another, and the others as they were.
fn are_samples(samples: &[i32; 4096], n: usize) -> bool {
    for (i, sample) in samples.iter().enumerate() {
        let due = if i < n { SAMPLES[i % 5] } else { 7 };
        if *sample != due {
            return false;
        }
    }
    true
}

fn are_bytes(bytes: &[u8; 12_288], n: usize, want: &[[u8; 3]; 5]) -> bool {
    for (i, byte) in bytes.iter().enumerate() {
        let due = if i / 3 < n { want[i / 3 % 5][i % 3] } else { 7 };
        if *byte != due {
            return false;
        }
    }
    true
}

fn come_back(n: usize) -> bool
    requires { n ≤ 4096 }
{
    let bytes = bytes_of();
    let mut samples = [7; 4096];
    decode(&mono(24, 44, 4096), &bytes[..3 * n], &mut samples[..n]);
    let mut back = [7; 12_288];
    encode(&samples[..n], Bits::B24, &mut back[..3 * n]);
    are_samples(&samples, n) && are_bytes(&back, n, &BYTES)
}

fn loud_samples() -> [i32; 4096] {
    let mut samples = [0; 4096];
    for i in 0..4096usize {
        samples[i] = LOUD[i % 5];
    }
    samples
}

fn are_bounded(n: usize) -> bool
    requires { n ≤ 4096 }
{
    let samples = loud_samples();
    let mut bytes = [7; 12_288];
    encode(&samples[..n], Bits::B24, &mut bytes[..3 * n]);
    are_bytes(&bytes, n, &LOUD_BYTES)
}

#[test]
fn twenty_four_bits_come_back_at_every_length(rt: HostRuntime) {
    for n in LENGTHS {
        assert!(rt; come_back(n));
    }
}

#[test]
fn what_twenty_four_bits_cannot_hold_is_bounded_at_every_length(rt: HostRuntime) {
    for n in LENGTHS {
        assert!(rt; are_bounded(n));
    }
}
