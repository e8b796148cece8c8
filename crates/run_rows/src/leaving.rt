//! Whether a run leaves what its row says.
use crate::files::wav;
use crate::playing::{Ended, ran};
use crate::row::Row;
use ses_io::{MemMedia, NoMemory};
use std::alloc::Global;
use std::sync::Wait;
use std::thread::Threads;

const TAKES: [&str; 2] = ["take-t-1.wav", "take-t-2.wav"];

/// The first thing that a run leaves and its row doesn't say.
#[derive(Clone, Copy, Debug, PartialEq, Eq)]
pub enum Left {
    /// There is none.
    AsSaid,
    /// It wasn't run, for want of memory.
    NotRun,
    /// Another status, by its number.
    Status(u8),
    /// Other bytes on out.
    Out,
    /// Other bytes in the master.
    Master,
    /// Another take, by its place.
    Take(usize),
    /// Another file of the session.
    Session,
}

// All that out is to get.
fn told(alloc: Global, row: &Row) -> Result<Vec<u8>, NoMemory> {
    let mut out = row.replies.as_bytes().to_vec(alloc)?;
    out.extend_from_slice(row.report.as_bytes())?;
    out.extend_from_slice(row.line.as_bytes())?;
    Ok(out)
}

fn is_mastered(alloc: Global, row: &Row, master: &[u8]) -> Result<bool, NoMemory> {
    let whole = wav(alloc, row.master)?;
    let stands = row.stands.unwrap_or(whole.len()).min(whole.len());
    Ok(master == &whole[..stands])
}

fn is_taken(alloc: Global, take: Option<&[u16]>, file: Option<&[u8]>) -> Result<bool, NoMemory> {
    match (take, file) {
        (None, None) => Ok(true),
        (Some(samples), Some(file)) => Ok(file == wav(alloc, samples)?.as_slice()),
        (None, Some(_)) | (Some(_), None) => Ok(false),
    }
}

// The place of the first take that is another one.
fn other_take(alloc: Global, row: &Row, media: &MemMedia) -> Result<Option<usize>, NoMemory> {
    for (place, (name, take)) in TAKES.iter().zip(row.takes).enumerate() {
        if !is_taken(alloc, *take, media.get(name))? {
            return Ok(Some(place));
        }
    }
    Ok(None)
}

// Whether the files of the session are as they were given.
fn holds_session(alloc: Global, row: &Row, media: &MemMedia) -> Result<bool, NoMemory> {
    let source = wav(alloc, row.source)?;
    Ok(
        media.get("s.toml") == Some(row.session.as_bytes())
            && media.get("a.wav") == Some(source.as_slice()),
    )
}

fn compared(alloc: Global, row: &Row, ended: &Ended) -> Result<Left, NoMemory> {
    let status = ended.status.number();
    if status != row.status {
        return Ok(Left::Status(status));
    }
    if ended.world.out.bytes() != told(alloc, row)?.as_slice() {
        return Ok(Left::Out);
    }
    if !is_mastered(alloc, row, ended.world.master.bytes())? {
        return Ok(Left::Master);
    }
    if let Some(place) = other_take(alloc, row, &ended.world.media)? {
        return Ok(Left::Take(place));
    }
    if !holds_session(alloc, row, &ended.world.media)? {
        return Ok(Left::Session);
    }
    Ok(Left::AsSaid)
}

/// What a run has left that its row doesn't say.
pub fn left_by(alloc: Global, row: &Row, ended: &Ended) -> Left {
    compared(alloc, row, ended).unwrap_or(Left::NotRun)
}

/// The same of a run of the row.
pub fn left_of<R>(rt: &R, alloc: Global, row: &Row) -> Left
where
    R: Threads + Wait + Sync,
{
    match ran(rt, alloc, row, &row.fails) {
        Some(ended) => left_by(alloc, row, &ended),
        None => Left::NotRun,
    }
}
