//! Reads that fail, and how many are made.
ghost use Rattle.std.specs.Prelude.{◌≡◌, ◌%◌, ◌<◌, length, slice_index};

use super::depths::{LIST, MONO_8, STRAY};
use super::{is_heard, open, put, read};
use audio_source::{OpenRefusal, ReadFault, SourceView, Sources};
use ses_io::{Failed, MemMedia};
use session_model::Frames;
use std::alloc::Global;

// Two frames of one channel and 8 bits in each of two files.
fn put_two(alloc: Global, media: &mut MemMedia) -> bool {
    let size = b"RIFF\x3c\0\0\0";
    let data = b"data\x02\0\0\0";
    put(
        alloc,
        media,
        "a.wav",
        &[size, STRAY, MONO_8, data, &[129, 130], LIST],
    ) && put(
        alloc,
        media,
        "b.wav",
        &[size, STRAY, MONO_8, data, &[131, 132], LIST],
    )
}

const TWO: [(&str, u16); 2] = [("a.wav", 1), ("b.wav", 1)];

// Through the bound of the trait.
fn two_by<F: Frames>(frames: &mut F, out: &mut [i32; 2]) -> Result<(), Failed>
    requires source { 1 < length (F.outside.channels frames.old) }
    requires whole { 2 % slice_index (F.outside.channels frames.old) 1 ≡ 0 }
{
    frames.frames(1, 0, out)
}

// Whether the second source, of one channel, is heard by its view.
fn is_in_view(sources: &mut Sources, media: &mut MemMedia) -> bool {
    if sources.channels(1) != Some(1) {
        return false;
    }
    let mut out = [7; 2];
    two_by(&mut SourceView { sources, media }, &mut out) == Ok(()) && out == [196_608, 262_144]
}

// Whether reads of the first source's sound fail, the second one is heard, and a third isn't there.
fn is_one_of_two_heard(alloc: Global, media: &mut MemMedia) -> bool {
    let mut out = [7; 2];
    match open(alloc, media, &TWO, 48_000) {
        Ok(mut sources) => {
            is_in_view(&mut sources, media)
                && media.fail_reads("a.wav", 56).is_ok()
                && read(&mut sources, media, 0, 0, &mut out) == Some(Err(ReadFault))
                && is_heard(&mut sources, media, 1, 0, &[196_608, 262_144])
                && read(&mut sources, media, 2, 0, &mut out).is_none()
        }
        Err(_) => false,
    }
}

// Whether sources aren't opened while reads of the second one's head fail.
fn is_told_while_opening(alloc: Global) -> bool {
    let mut media = MemMedia::new(alloc);
    put_two(alloc, &mut media)
        && media.fail_reads("b.wav", 24).is_ok()
        && open(alloc, &mut media, &TWO, 48_000).err() == Some(OpenRefusal::ReadFault)
}

fn faults_are_told(alloc: Global) -> bool {
    let mut media = MemMedia::new(alloc);
    put_two(alloc, &mut media) && is_one_of_two_heard(alloc, &mut media)
}

// 5,000 bytes that go round from 0 to 255.
fn rounds() -> [u8; 5000] {
    let mut sound = [0; 5000];
    for (k, byte) in sound.iter_mut().enumerate() {
        *byte = (k % 256) as u8;
    }
    sound
}

// Whether the samples are those bytes, and then 0.
fn is_round(out: &[i32]) -> bool {
    for (k, sample) in out.iter().enumerate() {
        let want = if k < 5000 {
            ((k % 256) as i32 - 128) * 65_536
        } else {
            0
        };
        if *sample != want {
            return false;
        }
    }
    true
}

// The first source's frames from the first on, through the bound of the trait.
fn all_by<F: Frames>(frames: &mut F, out: &mut [i32; 5001]) -> Result<(), Failed>
    requires source { 0 < length (F.outside.channels frames.old) }
    requires whole { 5001 % slice_index (F.outside.channels frames.old) 0 ≡ 0 }
{
    frames.frames(0, 0, out)
}

// Whether they are heard in one, of one channel.
fn is_long_in_view(sources: &mut Sources, media: &mut MemMedia) -> bool {
    if sources.channels(0) != Some(1) {
        return false;
    }
    let mut out = [7; 5001];
    all_by(&mut SourceView { sources, media }, &mut out) == Ok(()) && is_round(&out)
}

// Whether a read of the first line is made and then none more, the first of the second one fails, and all is heard.
fn are_read(alloc: Global, media: &mut MemMedia) -> bool {
    let mut out = [7; 4096];
    match open(alloc, media, &[("a.wav", 1)], 48_000) {
        Ok(mut sources) => {
            read(&mut sources, media, 0, 0, &mut out) == Some(Ok(()))
                && read(&mut sources, media, 0, 0, &mut out) == Some(Ok(()))
                && read(&mut sources, media, 0, 4096, &mut out) == Some(Err(ReadFault))
                && read(&mut sources, media, 0, 4096, &mut out) == Some(Ok(()))
                && is_long_in_view(&mut sources, media)
        }
        Err(_) => false,
    }
}

// Opening takes six calls: the size, and five reads of the head. So the seventh reads the first line, and the eighth
// the second.
fn eighth_call_fails(alloc: Global) -> bool {
    let sound = rounds();
    let mut media = MemMedia::new(alloc);
    put(
        alloc,
        &mut media,
        "a.wav",
        &[
            b"RIFF\xc2\x13\0\0",
            STRAY,
            MONO_8,
            b"data\x88\x13\0\0",
            &sound,
            LIST,
        ],
    ) && media.fail_call(8).is_ok()
        && are_read(alloc, &mut media)
}

#[test]
fn a_fault_is_told_and_leaves_the_other_source(rt: HostRuntime) {
    assert!(rt; faults_are_told(rt.alloc()));
    assert!(rt; is_told_while_opening(rt.alloc()));
    assert!(rt; eighth_call_fails(rt.alloc()));
}
