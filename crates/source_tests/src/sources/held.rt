//! Lines that are held: they are heard while reads fail, and stay after a fault of another source.
use super::depths::{LIST, MONO_8, MONO_16, STRAY};
use super::{is_heard, open, put, read};
use audio_source::{ReadFault, Sources};
use ses_io::MemMedia;
use std::alloc::Global;

// Eight frames of one channel and 16 bits, from 100 to 800, in the first of two files.
const RAMP: &[u8] = &[100, 0, 200, 0, 44, 1, 144, 1, 244, 1, 88, 2, 188, 2, 32, 3];

const FIRST: [i32; 4] = [25_600, 51_200, 76_800, 102_400];

const LAST: [i32; 4] = [128_000, 153_600, 179_200, 204_800];

fn put_two(alloc: Global, media: &mut MemMedia) -> bool {
    put(
        alloc,
        media,
        "a.wav",
        &[
            b"RIFF\x4a\0\0\0",
            STRAY,
            MONO_16,
            b"data\x10\0\0\0",
            RAMP,
            LIST,
        ],
    ) && put(
        alloc,
        media,
        "b.wav",
        &[
            b"RIFF\x3c\0\0\0",
            STRAY,
            MONO_8,
            b"data\x02\0\0\0",
            &[131, 132],
            LIST,
        ],
    )
}

// Whether the other half of a line is heard while reads of its file fail.
fn is_held(sources: &mut Sources, media: &mut MemMedia) -> bool {
    is_heard(sources, media, 0, 0, &FIRST)
        && media.fail_reads("a.wav", 0).is_ok()
        && is_heard(sources, media, 0, 4, &LAST)
}

// Whether it still is after a fault of the other file.
fn is_kept(sources: &mut Sources, media: &mut MemMedia) -> bool {
    let mut out = [7; 2];
    media.fail_reads("b.wav", 0).is_ok()
        && read(sources, media, 1, 0, &mut out) == Some(Err(ReadFault))
        && is_heard(sources, media, 0, 4, &LAST)
}

fn are_held(alloc: Global) -> bool {
    let mut media = MemMedia::new(alloc);
    if !put_two(alloc, &mut media) {
        return false;
    }
    match open(alloc, &mut media, &[("a.wav", 1), ("b.wav", 1)], 48_000) {
        Ok(mut sources) => is_held(&mut sources, &mut media) && is_kept(&mut sources, &mut media),
        Err(_) => false,
    }
}

#[test]
fn a_line_is_held_and_kept_after_a_fault(rt: HostRuntime) {
    assert!(rt; are_held(rt.alloc()));
}
