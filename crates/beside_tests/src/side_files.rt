//! A session whose region begins far in its source, with the source and an input, in memory, written by hand after RIFF WAVE: one
//! channel, 16 bits, 48,000 frames a second.
use ses_io::{MemMedia, MemSink, MemSource, NoMemory};
use std::alloc::Global;

/// The name of the session's file.
pub(crate) const SESSION: &str = "s.toml";

/// The name of the source's file.
pub(crate) const SOURCE: &str = "a.wav";

/// How many bytes a head has.
pub(crate) const HEAD: usize = 44;

// Two blocks of four frames: the track plays them from byte 12,044 of its source on.
const TEXT: &str = r#"[session]
version = 1
rate = 48000
bits = 16
channels = 1
block = 4
depth = 2

[[source]]
name = "a"
file = "a.wav"
channels = 1

[[track]]
name = "t"
channels = 1
input = 0

[[track.region]]
id = 1
source = "a"
start = 6000
length = 8
at = 0
"#;

// The head of 8,192 frames, which are 16,384 bytes.
const LONG: &[u8] =
    b"RIFF\x24\x40\0\0WAVEfmt \x10\0\0\0\x01\0\x01\0\x80\xbb\0\0\0\x77\x01\0\x02\0\x10\0data\0\x40\0\0";

// Eight frames.
const EIGHT: &[u8] =
    b"RIFF\x34\0\0\0WAVEfmt \x10\0\0\0\x01\0\x01\0\x80\xbb\0\0\0\x77\x01\0\x02\0\x10\0data\x10\0\0\0\
\x64\0\xc8\0\x2c\x01\x90\x01\xf4\x01\x58\x02\xbc\x02\x20\x03";

// The source: its head, and silence.
fn source(alloc: Global) -> Result<Vec<u8>, NoMemory> {
    let mut bytes = LONG.to_vec(alloc)?;
    bytes.extend_from_slice(&[0; 16_384])?;
    Ok(bytes)
}

/// The files of the session, before a run.
pub(crate) fn media(alloc: Global) -> Result<MemMedia, NoMemory> {
    let mut media = MemMedia::new(alloc);
    media.put(SESSION, TEXT.as_bytes().to_vec(alloc)?)?;
    media.put(SOURCE, source(alloc)?)?;
    Ok(media)
}

/// An input of two blocks; after that it is silent.
pub(crate) fn input(alloc: Global) -> Result<MemSource, NoMemory> {
    Ok(MemSource::new(EIGHT.to_vec(alloc)?, Vec::new(alloc)))
}

/// The lines of control.
pub(crate) fn control(alloc: Global) -> Result<MemSource, NoMemory> {
    Ok(MemSource::new(b"roll\n".to_vec(alloc)?, Vec::new(alloc)))
}

/// An empty sink.
pub(crate) fn sink(alloc: Global) -> MemSink {
    MemSink::new(alloc, Vec::new(alloc))
}
