//! Worked runs over a world in memory.
mod checked;
mod extensible;
mod layered;
mod migrated;
mod mixed;
mod of_bits;
mod played;
mod refused;
mod rendered;
mod reported;
mod row;
mod stems;

use crate::bench::{block_range, failing_media, row_holds};
use checked::CHECKED;
use cycle_journal::{Entry, Note, State};
use extensible::EXTENSIBLE;
use layered::LAYERED;
use migrated::MIGRATED;
use mixed::MIXED;
use of_bits::OF_BITS;
use played::PLAYED;
use refused::REFUSED;
use rendered::RENDERED;
use reported::report_of;
use row::{Ends, Row};
use ses_io::{MemMedia, MemSink, MemSource, NoMemory, World};
use ses_units::Name;
use session_model::{Part, Place, SessionRefusal};
use session_run::{FileRefusal, Outcome, Status, run, run_alone};
use std::alloc::Global;
use std::sync::Wait;
use std::thread::Threads;

type Memory = World<MemMedia, MemSource, MemSource, MemSink, MemSink>;

type Ended = Outcome<MemMedia, MemSource, MemSource, MemSink, MemSink>;

// The world of a row.
fn given(alloc: Global, row: &Row) -> Result<Memory, NoMemory> {
    let bad_masters = row.bad_writes.to_vec(alloc)?;
    let bad_outs = row.bad_writes.to_vec(alloc)?;
    let media = failing_media(alloc, row.files, row.bad_reads)?;
    Ok(World {
        media,
        input: MemSource::new(Vec::new(alloc), Vec::new(alloc)),
        control: MemSource::new(Vec::new(alloc), Vec::new(alloc)),
        master: MemSink::new(alloc, bad_masters),
        out: MemSink::new(alloc, bad_outs),
    })
}

fn refused_source(why: FileRefusal) -> Status {
    match Name::new("a") {
        Ok(name) => Status::SourceFile(name, why),
        Err(_) => Status::Done,
    }
}

fn status_of(ends: &Ends) -> Status {
    match *ends {
        Ends::Done => Status::Done,
        Ends::Usage => Status::Usage,
        Ends::Absent => Status::Session(SessionRefusal::Absent),
        Ends::BlockRange => Status::Session(block_range()),
        Ends::UnknownInRegion => Status::Session(SessionRefusal::Unknown(Place {
            part: Part::Region,
            row: 1,
            item: 1,
        })),
        Ends::Source(why) => refused_source(why),
        Ends::ReadFault => Status::ReadFault,
        Ends::MasterFault => Status::MasterFault,
        Ends::OutFault => Status::OutFault,
    }
}

// Whether an entry is edition 2 settled as 2 with this state and these notes.
fn entry_is(entry: &Entry, state: &State, notes: &[Note]) -> bool {
    entry.edition == 2
        && entry.settled == 2
        && entry.state == *state
        && entry.notes.as_slice() == notes
}

// Whether these are the entries of the row.
fn entries_are(entries: &[Entry], row: &Row) -> bool {
    let mut same = entries.len() == row.states.len();
    for (entry, state) in entries.iter().zip(row.states) {
        same = same && entry_is(entry, state, row.notes);
    }
    same
}

// Whether these bytes are the parts one behind the other.
fn are_joined(bytes: &[u8], parts: &[&[u8]]) -> bool {
    let mut rest = bytes;
    for part in parts {
        if rest.len() < part.len() || &rest[..part.len()] != *part {
            return false;
        }
        rest = &rest[part.len()..];
    }
    rest.is_empty()
}

// Whether these bytes are the first of two texts and then the second.
fn are_both(bytes: &[u8], first: &[u8], second: &[u8]) -> bool {
    if bytes.len() < first.len() || &bytes[..first.len()] != first {
        return false;
    }
    &bytes[first.len()..] == second
}

fn has_played(ended: &Ended, row: &Row) -> bool {
    match &ended.journal {
        None => row.states.is_empty(),
        Some(journal) => entries_are(journal.entries(), row),
    }
}

// The report of a row; nothing where it has none.
fn report_by(alloc: Global, row: &Row) -> Result<String, NoMemory> {
    match &row.report {
        Some(form) => report_of(alloc, form, row.states.len(), row.notes.len()),
        None => Ok(String::new(alloc)),
    }
}

fn leaves(ended: &Ended, row: &Row, report: &str) -> bool {
    ended.status == status_of(&row.ends)
        && ended.status.number() == row.number
        && are_both(ended.world.out.bytes(), report.as_bytes(), row.out)
        && has_played(ended, row)
        && are_joined(ended.world.master.bytes(), row.master)
}

// Whether a run of the words of a row leaves what it says.
fn ran<R>(rt: &R, alloc: Global, world: Memory, row: &Row) -> Result<bool, NoMemory>
where
    R: Threads + Wait + Sync,
{
    let report = report_by(alloc, row)?;
    let ended = run(rt, alloc, row.words, world);
    Ok(leaves(&ended, row, report.as_str()))
}

fn is_right<R>(rt: &R, alloc: Global, row: &Row) -> Result<bool, NoMemory>
where
    R: Threads + Wait + Sync,
{
    let world = given(alloc, row)?;
    ran(rt, alloc, world, row)
}

// The same, where the session's file is first written anew by a migrate.
fn is_right_migrated<R>(rt: &R, alloc: Global, row: &Row) -> Result<bool, NoMemory>
where
    R: Threads + Wait + Sync,
{
    let world = given(alloc, row)?;
    let mut world = run_alone(alloc, &["migrate", "s.toml"], world).world;
    world.media.put("s.toml", world.out.bytes().to_vec(alloc)?)?;
    world.out = MemSink::new(alloc, Vec::new(alloc));
    ran(rt, alloc, world, row)
}

#[test]
fn each_export_leaves_what_was_worked_out(rt: HostRuntime) {
    for (at, row) in PLAYED
        .iter()
        .chain(LAYERED)
        .chain(OF_BITS)
        .chain(MIXED)
        .enumerate()
    {
        row_holds(&rt, at, is_right(&rt, rt.alloc(), row) == Ok(true));
    }
}

#[test]
fn each_check_counts_the_parts_or_says_what_is_wrong(rt: HostRuntime) {
    for (at, row) in CHECKED.iter().enumerate() {
        row_holds(&rt, at, is_right(&rt, rt.alloc(), row) == Ok(true));
    }
}

#[test]
fn each_render_leaves_what_was_worked_out(rt: HostRuntime) {
    for (at, row) in RENDERED.iter().enumerate() {
        row_holds(&rt, at, is_right(&rt, rt.alloc(), row) == Ok(true));
    }
}

#[test]
fn each_refused_command_ends_with_its_status_and_its_line(rt: HostRuntime) {
    for (at, row) in REFUSED.iter().chain(EXTENSIBLE).chain(MIGRATED).enumerate() {
        row_holds(&rt, at, is_right(&rt, rt.alloc(), row) == Ok(true));
    }
}

#[test]
fn each_export_of_a_migrated_session_leaves_the_same(rt: HostRuntime) {
    for (at, row) in PLAYED
        .iter()
        .chain(LAYERED)
        .chain(OF_BITS)
        .chain(MIXED)
        .enumerate()
    {
        if row.bad_reads.is_empty() && row.bad_writes.is_empty() {
            let is_right = is_right_migrated(&rt, rt.alloc(), row);
            row_holds(&rt, at, is_right == Ok(true));
        }
    }
}
