//! What stands of a run of which one call of one object has failed.
use cycle_journal::{Entry, write_report};
use report_reader::read_report;
use run_rows::{Ended, Row, wav};
use ses_io::{MemMedia, MemSink};
use std::alloc::Global;

#[derive(Clone, Copy, Debug)]
pub(crate) enum Object {
    Input,
    Control,
    Master,
    Out,
    Media,
}

const READ_FAULT: u8 = 4;

const WRITE_FAULT: u8 = 5;

/// Whether the number is that of a status of the object.
pub(crate) fn is_its_own(object: Object, status: u8) -> bool {
    match object {
        Object::Media => status == READ_FAULT || status == WRITE_FAULT,
        Object::Input => status == 6,
        Object::Master => status == 7,
        Object::Control => status == 8,
        Object::Out => status == 9,
    }
}

// The line of a fault; out has none of its own.
fn line_of(status: u8) -> &'static [u8] {
    match status {
        READ_FAULT => b"error read-fault\n",
        WRITE_FAULT => b"error write-fault\n",
        6 => b"error input-fault\n",
        7 => b"error master-fault\n",
        8 => b"error control-fault\n",
        _ => b"",
    }
}

// Whether a front of a file stands, and then silence up to its end.
fn is_silenced(file: &[u8], whole: &[u8], front: usize) -> bool {
    file.len() == whole.len()
        && file.get(..front) == whole.get(..front)
        && file.iter().skip(front).all(|b| *b == 0)
}

// Whether the master has its header and a block for each entry: cut off behind them where it has failed, else silent.
fn master_stands(object: Object, ended: &Ended, entries: &[Entry], whole: &[u8]) -> bool {
    let master = ended.world.master.bytes();
    let front = entries.len().saturating_mul(8).saturating_add(44);
    match object {
        Object::Input => is_silenced(master, whole, front),
        Object::Master if master.is_empty() => entries.is_empty(),
        Object::Master => Some(master) == whole.get(..front),
        Object::Control | Object::Out => is_silenced(master, whole, 60)
            || is_silenced(master, whole, 44),
        Object::Media if ended.status.number() == READ_FAULT => master.len() == 60,
        Object::Media => master == whole,
    }
}

fn is_mastered(alloc: Global, row: &Row, object: Object, ended: &Ended, entries: &[Entry]) -> bool {
    match wav(alloc, row.master) {
        Ok(whole) => master_stands(object, ended, entries, &whole),
        Err(_) => false,
    }
}

// Whether a file has a front of this one's sound.
fn is_front(file: &[u8], whole: &[u8]) -> bool {
    match (file.get(44..), whole.get(44..)) {
        (Some(sound), Some(of)) => of.starts_with(sound),
        _ => false,
    }
}

// The samples of the first take; none where there is none.
fn first_take(row: &Row) -> &'static [u16] {
    match row.takes.first() {
        Some(Some(samples)) => samples,
        _ => &[],
    }
}

// Whether the first take has a front of its sound, and there is no second one.
fn takes_stand(alloc: Global, row: &Row, media: &MemMedia) -> bool {
    let Some(file) = media.get("take-t-1.wav") else {
        return media.get("take-t-2.wav") == None;
    };
    match wav(alloc, first_take(row)) {
        Ok(whole) => is_front(file, &whole) && media.get("take-t-2.wav") == None,
        Err(_) => false,
    }
}

// The report on out, as it is written again; None where it has other entries, or there is none.
fn report_on(alloc: Global, out: &[u8], entries: &[Entry]) -> Option<Vec<u8>> {
    let report = read_report(alloc, out).ok()?;
    if report.journal.entries() != entries {
        return None;
    }
    let mut again = MemSink::new(alloc, Vec::new(alloc));
    write_report(&mut again, &report.head, &report.edits, &report.journal).ok()?;
    again.bytes().to_vec(alloc).ok()
}

// Whether these replies and this report are those of the row, where no fault changes them: control's keeps lines from being read, and only
// a write of a take that fails is heard nowhere else.
fn are_its_own(row: &Row, object: Object, status: u8, replies: &[u8], report: &[u8]) -> bool {
    let own = row.replies.as_bytes();
    match object {
        Object::Control => own.starts_with(replies),
        _ if status == WRITE_FAULT => replies == own && report == row.report.as_bytes(),
        _ => replies == own,
    }
}

// Whether out has replies, a report of these entries, and the line of the status.
fn is_told(alloc: Global, row: &Row, object: Object, ended: &Ended, entries: &[Entry]) -> bool {
    let out = ended.world.out.bytes();
    let status = ended.status.number();
    let Some(report) = report_on(alloc, out, entries) else {
        return false;
    };
    let Some(said) = out.strip_suffix(line_of(status)) else {
        return false;
    };
    match said.strip_suffix(report.as_slice()) {
        Some(replies) => are_its_own(row, object, status, replies, &report),
        None => false,
    }
}

// Whether out has a front of the replies and of the report, and no line.
fn is_cut_off(row: &Row, out: &[u8]) -> bool {
    let replies = row.replies.as_bytes();
    match out.strip_prefix(replies) {
        Some(rest) => row.report.as_bytes().starts_with(rest),
        None => replies.starts_with(out),
    }
}

fn out_stands(alloc: Global, row: &Row, object: Object, ended: &Ended, entries: &[Entry]) -> bool {
    match object {
        Object::Out => is_cut_off(row, ended.world.out.bytes()),
        _ => is_told(alloc, row, object, ended, entries),
    }
}

/// Whether what stands of a run that was played is right.
pub(crate) fn is_right(
    alloc: Global,
    row: &Row,
    object: Object,
    ended: &Ended,
    entries: &[Entry],
) -> bool {
    out_stands(alloc, row, object, ended, entries)
        && is_mastered(alloc, row, object, ended, entries)
        && takes_stand(alloc, row, &ended.world.media)
}

/// Whether nothing stands of one that wasn't, but for the line of its status.
pub(crate) fn is_unplayed(ended: &Ended) -> bool {
    ended.world.out.bytes() == line_of(ended.status.number())
        && ended.world.master.bytes().is_empty()
        && ended.world.media.get("take-t-1.wav") == None
}
