//! Media in memory with what fails of them.
use ses_io::{MemMedia, NoMemory};
use std::alloc::Global;

/// A file of a media: its name, and its bytes in parts.
pub(crate) struct File {
    pub(crate) name: &'static str,
    pub(crate) parts: &'static [&'static [u8]],
}

/// What fails of a media.
#[derive(Clone, Copy)]
pub(crate) enum Fails {
    Nothing,
    /// Reads of a file from a place on.
    Reads(&'static str, u64),
    /// Writes to a file from a place on.
    Writes(&'static str, u64),
}

/// The parts one after the other.
pub(crate) fn joined(alloc: Global, parts: &[&[u8]]) -> Result<Vec<u8>, NoMemory> {
    let mut whole = Vec::new(alloc);
    for part in parts {
        whole.extend_from_slice(part)?;
    }
    Ok(whole)
}

/// A media of these files, of which this fails.
pub(crate) fn media_of(alloc: Global, files: &[File], fails: Fails) -> Result<MemMedia, NoMemory> {
    let mut media = MemMedia::new(alloc);
    for file in files {
        media.put(file.name, joined(alloc, file.parts)?)?;
    }
    match fails {
        Fails::Nothing => {}
        Fails::Reads(name, from) => media.fail_reads(name, from)?,
        Fails::Writes(name, from) => media.fail_writes(name, from)?,
    }
    Ok(media)
}
