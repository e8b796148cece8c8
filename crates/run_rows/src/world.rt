//! The world of a row, in memory.
use crate::files::wav;
use crate::row::{Fails, Row};
use ses_io::{MemMedia, MemSink, MemSource, NoMemory, World};
use std::alloc::Global;

/// A world in memory.
pub type Memory = World<MemMedia, MemSource, MemSource, MemSink, MemSink>;

fn media_of(alloc: Global, row: &Row, fails: &Fails<'_>) -> Result<MemMedia, NoMemory> {
    let mut media = MemMedia::new(alloc);
    media.put("s.toml", row.session.as_bytes().to_vec(alloc)?)?;
    media.put("a.wav", wav(alloc, row.source)?)?;
    if !row.there.is_empty() {
        media.put("take-t-1.wav", wav(alloc, row.there)?)?;
    }
    for n in fails.media {
        media.fail_call(*n)?;
    }
    if let Some((name, from)) = fails.reads {
        media.fail_reads(name, from)?;
    }
    if let Some((name, from)) = fails.writes {
        media.fail_writes(name, from)?;
    }
    Ok(media)
}

// No sample at all is an empty input.
fn input_of(alloc: Global, row: &Row) -> Result<Vec<u8>, NoMemory> {
    match row.input_bytes {
        Some(bytes) => Ok(bytes.to_vec(alloc)?),
        None if row.input.is_empty() => Ok(Vec::new(alloc)),
        None => wav(alloc, row.input),
    }
}

/// The world of a row, of which this fails.
pub fn world_of(alloc: Global, row: &Row, fails: &Fails<'_>) -> Result<Memory, NoMemory> {
    let input = input_of(alloc, row)?;
    let control = row.control.as_bytes().to_vec(alloc)?;
    Ok(World {
        media: media_of(alloc, row, fails)?,
        input: MemSource::new(input, fails.input.to_vec(alloc)?),
        control: MemSource::new(control, fails.control.to_vec(alloc)?),
        master: MemSink::new(alloc, fails.master.to_vec(alloc)?),
        out: MemSink::new(alloc, fails.out.to_vec(alloc)?),
    })
}
