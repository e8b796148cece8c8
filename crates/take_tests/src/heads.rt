//! Heads of a take's file while its blocks come, two a second: of one block after the first, and then of whole seconds.
use crate::bench::{Passed, TakeBench, row_holds};
use crate::media::QuietMedia;
use crate::sessions::HALVES;
use ses_io::MemMedia;
use std::alloc::Global;

const NAME: &str = "take-t-1.wav";

const SAMPLES: [i32; 4000] = [256; 4000];

// What a head has between its two sizes: one channel, 8,000 frames a second, 16 bits.
const FORM: &[u8] = b"WAVEfmt \x10\0\0\0\x01\0\x01\0\x40\x1f\0\0\x80\x3e\0\0\x02\0\x10\0data";

// Blocks of 8,000 bytes, by their indices: the fifth is lost. With each the bytes of the file, and the two sizes of its head:
// of one block, two, two, four, six and six.
const ROWS: [(u32, usize, &[u8], &[u8]); 6] = [
    (0, 8_044, b"\x64\x1f\0\0", b"\x40\x1f\0\0"),
    (1, 16_044, b"\xa4\x3e\0\0", b"\x80\x3e\0\0"),
    (2, 24_044, b"\xa4\x3e\0\0", b"\x80\x3e\0\0"),
    (3, 32_044, b"\x24\x7d\0\0", b"\0\x7d\0\0"),
    (5, 48_044, b"\xa4\xbb\0\0", b"\x80\xbb\0\0"),
    (6, 56_044, b"\xa4\xbb\0\0", b"\x80\xbb\0\0"),
];

// Whether the file begins with the head of these sizes.
fn has_head(held: &[u8], first: &[u8], last: &[u8]) -> bool {
    held.get(..4) == Some(b"RIFF")
        && held.get(4..8) == Some(first)
        && held.get(8..40) == Some(FORM)
        && held.get(40..44) == Some(last)
}

// Whether the block is taken with no fault, and the file then has so many bytes and that head.
fn leaves(
    bench: &mut TakeBench<QuietMedia>,
    alloc: Global,
    index: u32,
    size: usize,
    sizes: (&[u8], &[u8]),
) -> bool {
    let passed = Passed {
        track: 0,
        take: 1,
        index,
        samples: &SAMPLES,
    };
    let taken = bench.pass(alloc, &passed) == Some(Ok(()));
    match bench.media().held(NAME) {
        Some(held) => taken && held.len() == size && has_head(held, sizes.0, sizes.1),
        None => false,
    }
}

#[test]
fn a_head_tells_of_whole_seconds_that_stand(rt: HostRuntime) {
    let media = QuietMedia::new(MemMedia::new(rt.alloc()), usize::MAX);
    let mut bench = TakeBench::new(rt.alloc(), HALVES, media);
    for (at, (index, size, first, last)) in ROWS.iter().enumerate() {
        let right = match &mut bench {
            Some(bench) => leaves(bench, rt.alloc(), *index, *size, (*first, *last)),
            None => false,
        };
        row_holds(&rt, at, right);
    }
}
