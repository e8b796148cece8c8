//! Writes the frames of a WAV file to standard output as raw samples of 24 bits, the low byte first, so that they
//! can be held against the raw output of other tools. The words: the file, its channels, its rate, and how many frames.
#![tactic(auto)]

use audio_source::Sources;
use ses_files::{FilesRead, FolderMedia, WriteSink};
use ses_io::{Failed, write_all};
use ses_units::{Bits, Name};
use session_model::{FileName, SourceDecl, SourceList};
use std::alloc::Global;
use std::process::ExitCode;
use std::{env, io};
use wav_codec::encode;

// The most frames that are read at once, the most samples of them, and their bytes.
const FRAMES: usize = 256;

const SAMPLES: usize = 2_048;

const BYTES: usize = 6_144;

// What the words ask for.
#[derive(Drop)]
struct Asked<'a> {
    file: &'a str,
    channels: u16,
    rate: u32,
    frames: u64,
}

fn read_words<'a>(words: &[&'a str]) -> Option<Asked<'a>> {
    match words {
        [file, channels, rate, frames] => Some(Asked {
            file,
            channels: channels.parse().ok()?,
            rate: rate.parse().ok()?,
            frames: frames.parse().ok()?,
        }),
        _ => None,
    }
}

fn open(alloc: Global, media: &mut FolderMedia<HostRuntime>, asked: &Asked<'_>) -> Option<Sources> {
    let mut list = SourceList::new(alloc, 1).ok()?;
    list.push(SourceDecl {
        name: Name::new("source").ok()?,
        file: FileName::new(alloc, asked.file).ok()?,
        channels: asked.channels,
    });
    Sources::new(alloc, media, &list, asked.rate).ok()
}

// Writes so many frames, at most 256, of the source from a frame on.
fn write_block(
    media: &mut FolderMedia<HostRuntime>,
    sources: &mut Sources,
    from: u64,
    count: usize,
    out: &mut WriteSink<io::Stdout>,
) -> Result<(), Failed> {
    let channels = sources.channels(0).ok_or(Failed)? as usize;
    if count > FRAMES || channels > SAMPLES / FRAMES {
        return Err(Failed);
    }
    let used = count * channels;
    let mut samples = [0; SAMPLES];
    let mut bytes = [0; BYTES];
    let read = sources.frames(media, 0, from, &mut samples[..used]);
    read.map_err(|_| Failed)?;
    encode(&samples[..used], Bits::B24, &mut bytes[..used * 3]);
    write_all(out, &bytes[..used * 3])
}

fn write_frames(
    media: &mut FolderMedia<HostRuntime>,
    sources: &mut Sources,
    frames: u64,
    out: &mut WriteSink<io::Stdout>,
) -> Result<(), Failed> {
    for from in (0..frames).step_by(FRAMES) {
        let count = (frames - from).min(FRAMES as u64) as usize;
        write_block(media, sources, from, count, out)?;
    }
    Ok(())
}

fn main(rt: HostRuntime) -> io::Result<ExitCode> {
    let alloc = rt.alloc();
    let all: Vec<String> = env::args(&rt)?.skip(1).collect(alloc)?;
    let mut words: Vec<&str> = Vec::new(alloc);
    for word in all.iter() {
        words.push(word.as_str())?;
    }
    let Ok(read) = FilesRead::new(alloc) else {
        return Ok(ExitCode::FAILURE);
    };
    let mut media = FolderMedia::new(rt, String::new(alloc), read);
    let mut out = WriteSink::new(rt.stdout());
    let written = match read_words(words.as_slice()) {
        Some(asked) => match open(alloc, &mut media, &asked) {
            Some(mut sources) => write_frames(&mut media, &mut sources, asked.frames, &mut out),
            None => Err(Failed),
        },
        None => Err(Failed),
    };
    Ok(match written {
        Ok(()) => ExitCode::SUCCESS,
        Err(_) => ExitCode::FAILURE,
    })
}
