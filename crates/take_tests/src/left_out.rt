//! Blocks that don't come after the last one, or aren't one block of the track: nothing of them is written.
use crate::bench::{Passed, TakeBench, row_holds};
use crate::media::QuietMedia;
use crate::sessions::BASE;
use ses_io::MemMedia;
use std::alloc::Global;

// The second block of take 10, the first of its track that comes, and the third one.
const SECOND: Passed = Passed {
    track: 0,
    take: 10,
    index: 1,
    samples: &[256, 512, 768, 1024],
};

const THIRD: Passed = Passed {
    track: 0,
    take: 10,
    index: 2,
    samples: &[1280, 1536, 1792, 2048],
};

// Each by its take, its index and its samples.
const LEFT_OUT: &[(u32, u32, &[i32])] = &[
    // the same again, with other samples too
    (10, 1, &[256, 512, 768, 1024]),
    (10, 1, &[1, 2, 3, 4]),
    // an earlier block of the take, and blocks of older takes
    (10, 0, &[1, 2, 3, 4]),
    (9, 2, &[1, 2, 3, 4]),
    (0, 2, &[1, 2, 3, 4]),
    // of a wrong number of samples, in the same take and in the next one
    (10, 2, &[]),
    (10, 2, &[1, 2, 3]),
    (10, 2, &[1, 2, 3, 4, 5]),
    (11, 0, &[1, 2, 3, 4, 5, 6, 7, 8]),
];

// The head of take 10: its blocks are shorter than a head, which tells of one of them.
const HEAD: &[u8] =
    b"RIFF\x2c\0\0\0WAVEfmt \x10\0\0\0\x01\0\x01\0\x80\xbb\0\0\0\x77\x01\0\x02\0\x10\0data\x08\0\0\0";

// What take 10 holds from byte 44 on, before and after its third block.
const BEFORE: &[u8] = b"\0\0\0\0\0\0\0\0\x01\0\x02\0\x03\0\x04\0";

const AFTER: &[u8] = b"\0\0\0\0\0\0\0\0\x01\0\x02\0\x03\0\x04\0\x05\0\x06\0\x07\0\x08\0";

// Whether take 10 is begun with these bytes, and no take before or after it is there.
fn has_sound(media: &QuietMedia, sound: &[u8]) -> bool {
    media.is_begun("take-t-10.wav", HEAD, sound)
        && media.held("take-t-0.wav").is_none()
        && media.held("take-t-9.wav").is_none()
        && media.held("take-t-11.wav").is_none()
}

// Whether a block is taken with no fault, and take 10 then holds these bytes.
fn leaves(bench: &mut TakeBench<QuietMedia>, alloc: Global, passed: &Passed, sound: &[u8]) -> bool {
    bench.pass(alloc, passed) == Some(Ok(())) && has_sound(bench.media(), sound)
}

fn is_left_out(alloc: Global, take: u32, index: u32, samples: &'static [i32]) -> Option<bool> {
    let media = QuietMedia::new(MemMedia::new(alloc), usize::MAX);
    let mut bench = TakeBench::new(alloc, BASE, media)?;
    let passed = Passed {
        track: 0,
        take,
        index,
        samples,
    };
    Some(
        leaves(&mut bench, alloc, &SECOND, BEFORE)
            && leaves(&mut bench, alloc, &passed, BEFORE)
            && leaves(&mut bench, alloc, &THIRD, AFTER),
    )
}

#[test]
fn a_block_that_is_left_out_changes_nothing(rt: HostRuntime) {
    for (at, (take, index, samples)) in LEFT_OUT.iter().enumerate() {
        let right = is_left_out(rt.alloc(), *take, *index, samples);
        row_holds(&rt, at, right == Some(true));
    }
}
