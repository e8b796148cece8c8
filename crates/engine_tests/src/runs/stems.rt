//! Eight stereo files of 480,000 frames are mixed by an export: 469 blocks of 1,024 frames.
use super::reported::report_of;
use super::row::{Form, HEARD};
use super::{Ended, Memory, are_joined, entry_is};
use crate::bench::row_holds;
use cycle_journal::{Entry, State};
use ses_io::{MemMedia, MemSink, MemSource, NoMemory, World};
use session_run::{Status, run};
use std::alloc::Global;
use std::sync::Wait;
use std::thread::Threads;

const HEAD: &[u8] =
    b"[session]\nversion = 1\nrate = 48000\nbits = 16\nchannels = 2\nblock = 1024\ndepth = 16\n";

// The head of a stereo file of 24 bits: 2,880,000 bytes of sound.
const STEM_RIFF: &[u8] = b"RIFF\x24\xf2\x2b\0WAVEfmt \x10\0\0\0";

const STEM_FORMAT: &[u8] = &[1, 0, 2, 0, 0x80, 0xbb, 0, 0, 0, 0x65, 4, 0, 6, 0, 24, 0];

const STEM_DATA: &[u8] = b"data\x00\xf2\x2b\0";

// That of the master, of 16 bits: 480,256 frames, which are 1,921,024 bytes.
const RIFF: &[u8] = b"RIFF\x24\x50\x1d\0WAVEfmt \x10\0\0\0";

const FORMAT: &[u8] = &[1, 0, 2, 0, 0x80, 0xbb, 0, 0, 0, 0xee, 2, 0, 4, 0, 16, 0];

const DATA: &[u8] = b"data\x00\x50\x1d\0";

// The bytes of a stem: each sample is 1,000 of 24 bits.
fn stem(alloc: Global) -> Result<Vec<u8>, NoMemory> {
    let sound = [0xe8u8, 3, 0].repeat(alloc, 960_000)?;
    let mut bytes = Vec::new(alloc);
    bytes.extend_from_slice(STEM_RIFF)?;
    bytes.extend_from_slice(STEM_FORMAT)?;
    bytes.extend_from_slice(STEM_DATA)?;
    bytes.extend_from_slice(sound.as_slice())?;
    Ok(bytes)
}

// A source of that stem, and a track that plays all of it.
fn part(alloc: Global, n: u32) -> Result<String, NoMemory> {
    let source = format!(in alloc;
        "[[source]]\nname = \"s{n}\"\nfile = \"s{n}.wav\"\nchannels = 2\n"
    )?;
    let track = format!(in alloc; "[[track]]\nname = \"t{n}\"\nchannels = 2\n")?;
    let region = format!(in alloc;
        "[[track.region]]\nid = 1\nsource = \"s{n}\"\nlength = 480000\nat = 0\n"
    )?;
    Ok(format!(in alloc; "{source}{track}{region}")?)
}

// The session and its stems.
fn media_of_stems(alloc: Global) -> Result<MemMedia, NoMemory> {
    let stem = stem(alloc)?;
    let mut session = Vec::new(alloc);
    session.extend_from_slice(HEAD)?;
    let mut media = MemMedia::new(alloc);
    for n in 1..=8 {
        session.extend_from_slice(part(alloc, n)?.as_bytes())?;
        let name = format!(in alloc; "s{n}.wav")?;
        media.put(name.as_str(), stem.as_slice().to_vec(alloc)?)?;
    }
    media.put("s.toml", session)?;
    Ok(media)
}

fn given(alloc: Global) -> Result<Memory, NoMemory> {
    Ok(World {
        media: media_of_stems(alloc)?,
        input: MemSource::new(Vec::new(alloc), Vec::new(alloc)),
        control: MemSource::new(Vec::new(alloc), Vec::new(alloc)),
        master: MemSink::new(alloc, Vec::new(alloc)),
        out: MemSink::new(alloc, Vec::new(alloc)),
    })
}

// Whether all 469 cycles rolled and heard each track.
fn all_rolled(entries: &[Entry]) -> bool {
    let mut right = entries.len() == 469;
    for (entry, seq) in entries.iter().zip(0..469) {
        let state = State::Rolling { generation: 1, seq };
        right = right && entry_is(entry, &state, &[HEARD; 8]);
    }
    right
}

// Whether the master has 480,000 frames of 8,000 at 24 bits, which is 31 in each channel, and then 256 of silence.
fn is_mixed(alloc: Global, bytes: &[u8]) -> Result<bool, NoMemory> {
    let sound = [31u8, 0, 31, 0].repeat(alloc, 480_000)?;
    let parts = [RIFF, FORMAT, DATA, sound.as_slice(), &[0; 1024]];
    Ok(bytes.len() == 1_921_068 && are_joined(bytes, &parts))
}

const FORM: Form = Form {
    from: 0,
    bits: 16,
    channels: 2,
    block: 1024,
    cycles: 469,
};

fn leaves(alloc: Global, ended: &Ended) -> Result<bool, NoMemory> {
    let report = report_of(alloc, &FORM, 469, 8)?;
    let rolled = match &ended.journal {
        Some(journal) => all_rolled(journal.entries()),
        None => false,
    };
    let told = ended.status == Status::Done && ended.world.out.bytes() == report.as_bytes();
    Ok(told && rolled && is_mixed(alloc, ended.world.master.bytes())?)
}

fn is_right<R>(rt: &R, alloc: Global) -> Result<bool, NoMemory>
where
    R: Threads + Wait + Sync,
{
    let ended = run(rt, alloc, &["export", "s.toml", "0", "469"], given(alloc)?);
    leaves(alloc, &ended)
}

#[test]
fn eight_stereo_stems_are_mixed_frame_by_frame(rt: HostRuntime) {
    row_holds(&rt, 0, is_right(&rt, rt.alloc()) == Ok(true));
}
