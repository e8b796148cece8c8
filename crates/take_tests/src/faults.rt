//! Calls of the media that fail while the take of a lost block is written, one in each run.
use crate::bench::{Ended, TakeBench, row_holds};
use crate::media::QuietMedia;
use crate::takes::{ONE_HAS_FAILED, ONE_IS_CUT, Row, THIRD_IS_LOST};
use ses_io::MemMedia;
use std::alloc::Global;

const NAME: &str = "take-t-1.wav";

// The sound of the whole take: 1 to 8, and four zeros.
const SOUND: &[u8] = b"\x01\0\x02\0\x03\0\x04\0\x05\0\x06\0\x07\0\x08\0\0\0\0\0\0\0\0\0";

// A media that takes each piece whole is called six times: for the head of no blocks, the first block, the head of one,
// the second block, and at the end the zeros of the third one and the header. The blocks are shorter than a head, which tells
// of one of them until then. The call that fails, where, and the bytes that it leaves.
const CALLS: [(u64, Ended, Option<usize>); 6] = [
    (1, Ended::AtBlock(0), None),
    (2, Ended::AtBlock(0), Some(44)),
    (3, Ended::AtBlock(0), Some(52)),
    (4, Ended::AtBlock(1), Some(52)),
    (5, Ended::AtFinish, Some(60)),
    (6, Ended::AtFinish, Some(68)),
];

// Writes to the take fail from these places on; those over its head are at place 0.
const PLACES: [(u64, Ended, Option<usize>); 5] = [
    (0, Ended::AtBlock(0), None),
    (44, Ended::AtBlock(0), Some(44)),
    (52, Ended::AtBlock(1), Some(52)),
    (60, Ended::AtFinish, Some(60)),
    (68, Ended::Whole, Some(68)),
];

// The bytes that a media takes at once, and how often it is then called. Pieces of 44, 8, 44, 8, 8 and 44 bytes are 156
// calls byte by byte, and 9 + 2 + 9 + 2 + 2 + 9 by five bytes.
const PIECES: [(usize, u64); 3] = [(usize::MAX, 6), (5, 33), (1, 156)];

// The run of a row over a media, and how it ended.
fn ended(alloc: Global, row: &Row, media: QuietMedia) -> Option<(TakeBench<QuietMedia>, Ended)> {
    let mut bench = TakeBench::new(alloc, row.run.session, media)?;
    let ended = bench.carry_out(alloc, &row.run)?;
    Some((bench, ended))
}

// Over one that takes at most so many bytes at once, and whose n-th call fails.
fn failed(alloc: Global, n: u64, most: usize) -> Option<(TakeBench<QuietMedia>, Ended)> {
    let mut files = MemMedia::new(alloc);
    files.fail_call(n).ok()?;
    ended(alloc, &THIRD_IS_LOST, QuietMedia::new(files, most))
}

// Over one whose writes to the take fail from a place on.
fn failed_from(alloc: Global, row: &Row, from: u64) -> Option<(TakeBench<QuietMedia>, Ended)> {
    let mut files = MemMedia::new(alloc);
    files.fail_writes(NAME, from).ok()?;
    ended(alloc, row, QuietMedia::new(files, usize::MAX))
}

// Whether a run ended so, and its file has so many bytes.
fn is_ended(run: Option<(TakeBench<QuietMedia>, Ended)>, want: Ended, size: Option<usize>) -> bool {
    match run {
        Some((bench, ended)) => ended == want && bench.media().length(NAME) == size,
        None => false,
    }
}

#[test]
fn each_call_that_fails_ends_the_block_or_the_finish(rt: HostRuntime) {
    for (at, (n, want, size)) in CALLS.iter().enumerate() {
        let run = failed(rt.alloc(), *n, usize::MAX);
        row_holds(&rt, at, is_ended(run, *want, *size));
    }
}

#[test]
fn a_file_that_takes_no_more_bytes_is_a_fault(rt: HostRuntime) {
    for (at, (from, want, size)) in PLACES.iter().enumerate() {
        row_holds(
            &rt,
            at,
            is_ended(failed_from(rt.alloc(), &THIRD_IS_LOST, *from), *want, *size),
        );
    }
}

// Whether the files are as the row says.
fn has_files(media: &QuietMedia, row: &Row) -> bool {
    for (name, bytes) in row.files {
        if media.held(name) != *bytes {
            return false;
        }
    }
    true
}

#[test]
fn takes_behind_one_that_meets_a_fault_are_whole(rt: HostRuntime) {
    let right = match failed_from(rt.alloc(), &ONE_IS_CUT, 52) {
        Some((bench, ended)) => ended == Ended::AtFinish && has_files(bench.media(), &ONE_IS_CUT),
        None => false,
    };
    row_holds(&rt, 0, right);
}

// How many blocks of a run over such a media met a fault, where it goes on, and how it ended.
fn gone_through(
    alloc: Global,
    row: &Row,
    from: u64,
) -> Option<(TakeBench<QuietMedia>, usize, Ended)> {
    let mut files = MemMedia::new(alloc);
    files.fail_writes(NAME, from).ok()?;
    let mut bench = TakeBench::new(alloc, row.run.session, QuietMedia::new(files, usize::MAX))?;
    let (met, ended) = bench.go_through(alloc, &row.run)?;
    Some((bench, met, ended))
}

#[test]
fn a_take_that_has_failed_is_left_and_all_others_are_whole(rt: HostRuntime) {
    let right = match gone_through(rt.alloc(), &ONE_HAS_FAILED, 52) {
        Some((bench, met, ended)) => {
            met == 1 && ended == Ended::Whole && has_files(bench.media(), &ONE_HAS_FAILED)
        }
        None => false,
    };
    row_holds(&rt, 0, right);
}

// Whether the file has a front of the sound behind its head.
fn has_front(media: &QuietMedia) -> bool {
    match media.held(NAME) {
        Some(held) => SOUND.starts_with(held.get(44..).unwrap_or(&[])),
        None => true,
    }
}

// Whether a run with a call that fails meets it, and leaves a front.
fn is_front(alloc: Global, n: u64, most: usize) -> bool {
    match failed(alloc, n, most) {
        Some((bench, ended)) => ended != Ended::Whole && has_front(bench.media()),
        None => false,
    }
}

// Whether that is so for each of so many calls, and the next one isn't made.
fn are_fronts(alloc: Global, most: usize, calls: u64) -> bool {
    for n in 1..=calls {
        if !is_front(alloc, n, most) {
            return false;
        }
    }
    let whole = failed(alloc, calls.saturating_add(1), most);
    is_ended(whole, Ended::Whole, Some(68))
}

#[test]
fn a_fault_leaves_a_front_of_the_take(rt: HostRuntime) {
    for (at, (most, calls)) in PIECES.iter().enumerate() {
        row_holds(&rt, at, are_fronts(rt.alloc(), *most, *calls));
    }
}
