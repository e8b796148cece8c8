//! Control's lines and what is answered to them, with a run that is told by hand.
mod rows;

use crate::row::row_holds;
use control_desk::{Control, Progress};
use edition_log::Edition;
use rows::{BUSSES, Row, TRACK, rows};
use ses_io::{MemSink, MemSource, Sink, Source};
use session_toml::session_of;
use std::alloc::Global;

// Control's letter, with so much seen of a run: an edit is published in this edition.
fn letter<C: Source, O: Sink>(control: &mut Control<C, O>, e: &mut Edition, seen: &Progress) {
    if seen.entries > 100_000 || !control.answer(seen) {
        return;
    }
    let Some(edit) = control.next(seen) else {
        return;
    };
    if e.ended() || e.transport().quit {
        return;
    }
    let answer = e.apply(&edit);
    if control.answer(seen) {
        control.published(&edit, answer);
    }
}

// What out holds after the letters of a row, and whether control says at its end what the row does.
fn holds(alloc: Global, row: &Row) -> Option<bool> {
    let desk = if row.busses { BUSSES } else { TRACK };
    let mut e = Edition::opening(alloc, session_of(alloc, desk.as_bytes()).ok()?).ok()?;
    let source = MemSource::new(
        row.lines.as_bytes().to_vec(alloc).ok()?,
        row.bad_reads.to_vec(alloc).ok()?,
    );
    let out = MemSink::new(alloc, row.bad_writes.to_vec(alloc).ok()?);
    let mut control = Control::reading(source, out);
    for (entries, settled, played_out) in row.letters {
        let seen = Progress {
            edits: e.number(),
            entries: *entries,
            settled: *settled,
            played_out: *played_out,
        };
        letter(&mut control, &mut e, &seen);
    }
    let ended = control.has_ended();
    let left = control.parts();
    Some(
        left.out.bytes() == row.out.as_bytes()
            && ended == row.ended
            && (left.read_failed, left.write_failed, left.long) == row.failed,
    )
}

#[test]
fn each_line_is_answered_as_its_row_says(rt: HostRuntime) {
    for (at, row) in rows().iter().enumerate() {
        row_holds(&rt, at, holds(rt.alloc(), row) == Some(true));
    }
}
