//! What is found of a run on threads: its journal and master by `verify`, its takes and its replies.
use crate::case::{Case, SESSION, SOURCE, media_of};
use crate::leaving::InMemory;
use crate::playing::Beside;
use crate::replies::are_replies;
use crate::takes::other_take;
use command_words::Verify;
use cycle_journal::{ReportHead, Status, write_report};
use ses_io::{MemSink, NoMemory};
use session_model::Session;
use session_opening::read_session;
use session_verify::verify;
use std::alloc::Global;

const REPORT: &str = "report.txt";

const MASTER: &str = "master.wav";

// The bytes of a header.
const HEADER: usize = 44;

/// The first thing that isn't as it has to be.
#[derive(Clone, Copy, Debug, PartialEq, Eq)]
pub enum Found {
    /// There is none.
    AsItHasToBe,
    /// It wasn't run or judged.
    NotRun,
    /// A want of memory is told.
    Memory,
    /// `verify` has refuted this line of the report, or of its master; 0 where it is something else.
    Line(u64),
    /// A take of this track, from 0.
    Take(usize),
    /// The replies.
    Replies,
    /// A file of the session.
    Session,
}

// The form of the report.
fn head_of(case: &Case, session: &Session) -> ReportHead {
    let channels = match session.routes.as_slice().last() {
        Some(master) => master.channels,
        None => 0,
    };
    ReportHead {
        rate: session.rate,
        bits: session.bits,
        channels,
        block: session.block,
        cycles: case.cycles,
    }
}

fn report_of(
    alloc: Global,
    case: &Case,
    session: &Session,
    left: &InMemory,
) -> Result<Vec<u8>, NoMemory> {
    let mut out = MemSink::new(alloc, Vec::new(alloc));
    match write_report(
        &mut out,
        &head_of(case, session),
        &left.edits,
        &left.journal,
    ) {
        Ok(()) => Ok(out.bytes().to_vec(alloc)?),
        Err(_) => Err(NoMemory),
    }
}

// The master; one that a fault has cut off goes on with zeros, and in its header with what the run on one thread has there.
fn master_of(alloc: Global, both: &Beside) -> Result<Vec<u8>, NoMemory> {
    let whole = both.serial.world.master.bytes();
    let mut master = both.threaded.world.master.bytes().to_vec(alloc)?;
    if !both.threaded.faults.master {
        return Ok(master);
    }
    for (place, byte) in whole.iter().enumerate().skip(master.len()) {
        let next = if place < HEADER { *byte } else { 0 };
        master.push(next)?;
    }
    Ok(master)
}

// The line that `verify` refutes; None where it finds all entries as they have to be.
fn refuted(
    alloc: Global,
    case: &Case,
    session: &Session,
    both: &Beside,
) -> Result<Option<u64>, NoMemory> {
    let mut media = media_of(alloc, case)?;
    media.put(REPORT, report_of(alloc, case, session, &both.threaded)?)?;
    media.put(MASTER, master_of(alloc, both)?)?;
    let asked = Verify {
        session: SESSION,
        report: REPORT,
        master: MASTER,
    };
    match verify(alloc, &asked, &mut media) {
        Ok(entries) if entries as usize == both.threaded.journal.entries().len() => Ok(None),
        Ok(_) => Ok(Some(0)),
        Err(Status::Refuted(line)) => Ok(Some(line)),
        Err(_) => Ok(Some(0)),
    }
}

// Whether a line may be refuted: that of the last entry, and what follows, where the master was cut off.
fn may_be_refuted(left: &InMemory, line: u64) -> bool {
    let edits = left.edits.as_slice().len() as u64;
    let entries = left.journal.entries().len() as u64;
    let last = edits.saturating_add(entries).saturating_add(2);
    left.faults.master && line >= last && line > 2
}

// Whether the files of the session are as they were given.
fn holds_session(case: &Case, left: &InMemory) -> bool {
    left.world.media.get(SESSION) == Some(case.session.as_slice())
        && left.world.media.get(SOURCE) == Some(case.source.as_slice())
}

fn first_other(alloc: Global, case: &Case, both: &Beside) -> Result<Found, NoMemory> {
    let left = &both.threaded;
    let mut media = media_of(alloc, case)?;
    let Ok(session) = read_session(alloc, &mut media, SESSION) else {
        return Ok(Found::NotRun);
    };
    if left.faults.memory {
        return Ok(Found::Memory);
    }
    if let Some(line) = refuted(alloc, case, &session, both)?
        && !may_be_refuted(left, line)
    {
        return Ok(Found::Line(line));
    }
    if let Some(track) = other_take(alloc, case, &session, left)? {
        return Ok(Found::Take(track));
    }
    let (said, serial) = (left.world.out.bytes(), both.serial.world.out.bytes());
    if !are_replies(&left.journal, said, serial) {
        return Ok(Found::Replies);
    }
    if !holds_session(case, left) {
        return Ok(Found::Session);
    }
    Ok(Found::AsItHasToBe)
}

/// What is found of a run.
pub fn judged(alloc: Global, case: &Case, both: &Beside) -> Found {
    first_other(alloc, case, both).unwrap_or(Found::NotRun)
}
