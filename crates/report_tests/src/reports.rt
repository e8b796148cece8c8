//! The report of a run, byte for byte, and read back from what a run wrote: rows worked out by hand.
use arrayvec::ArrayVec;
use cycle_journal::{Entry, Journal, Note, Play, ReportHead, State, Take, write_report};
use report_reader::read_report;
use ses_io::{Failed, MemSink};
use ses_units::Bits;
use session_model::{Edit, EditList};
use std::alloc::Global;
use std::process::Abort;

const HEARD: Note = Note {
    play: Play::Heard(0),
    take: Take::Off,
};

const SHORT: Note = Note {
    play: Play::Short(2),
    take: Take::Off,
};

const SILENT: Note = Note {
    play: Play::Silent,
    take: Take::Off,
};

const TAKEN: Note = Note {
    play: Play::Heard(0),
    take: Take::Taken { take: 1, index: 0 },
};

const SHORT_TAKEN: Note = Note {
    play: Play::Short(2),
    take: Take::Taken { take: 1, index: 1 },
};

const SHORT_LOST: Note = Note {
    play: Play::Short(2),
    take: Take::Lost {
        take: 1,
        index: 2,
        head: 0,
    },
};

// An edit without a name.
#[derive(Clone, Copy)]
enum Says {
    Roll,
    Quit,
    Locate(u64),
}

fn edit_of(says: Says) -> Edit {
    match says {
        Says::Roll => Edit::Roll,
        Says::Quit => Edit::Quit,
        Says::Locate(to) => Edit::Locate { to },
    }
}

// A run: the cycles that were asked, the accepted edits, of each entry its edition, its settled number, its state and the
// note of each track, and the report.
struct Row {
    cycles: u32,
    edits: &'static [Says],
    entries: &'static [(u32, u32, State, &'static [Note])],
    text: &'static str,
}

const FIRST_LOCATED: State = State::Rolling {
    generation: 1,
    seq: 0,
};

const SECOND_LOCATED: State = State::Rolling {
    generation: 1,
    seq: 1,
};

const FIRST: State = State::Rolling {
    generation: 0,
    seq: 0,
};

const SECOND: State = State::Rolling {
    generation: 0,
    seq: 1,
};

const THIRD: State = State::Rolling {
    generation: 0,
    seq: 2,
};

const SEEKING: State = State::Seeking { track: 0, tail: 1 };

const ROWS: [Row; 5] = [
    // an export of two cycles
    Row {
        cycles: 2,
        edits: &[Says::Locate(0), Says::Roll],
        entries: &[
            (2, 2, FIRST_LOCATED, &[HEARD]),
            (2, 2, SECOND_LOCATED, &[HEARD]),
        ],
        text: "report 1\nformat 48000 16 1 4 2\nedit 1 locate 0\nedit 2 roll\ncycle 1 2 2 rolling 1 0 h0/-\n\
            cycle 2 2 2 rolling 1 1 h0/-\nend 2\n",
    },
    // a locate between two cycles, and a quit
    Row {
        cycles: 2,
        edits: &[Says::Roll, Says::Locate(4), Says::Quit],
        entries: &[(1, 1, FIRST, &[HEARD]), (2, 2, FIRST_LOCATED, &[HEARD])],
        text: "report 1\nformat 48000 16 1 4 2\nedit 1 roll\nedit 2 locate 4\nedit 3 quit\ncycle 1 1 1 rolling 0 0 h0/-\n\
            cycle 2 2 2 rolling 1 0 h0/-\nend 2\n",
    },
    // an underrun
    Row {
        cycles: 3,
        edits: &[Says::Roll],
        entries: &[
            (1, 1, FIRST, &[HEARD]),
            (1, 1, SECOND, &[SHORT]),
            (1, 1, THIRD, &[HEARD]),
        ],
        text: "report 1\nformat 48000 16 1 4 3\nedit 1 roll\ncycle 1 1 1 rolling 0 0 h0/-\ncycle 2 1 1 rolling 0 1 s2/-\n\
            cycle 3 1 1 rolling 0 2 h0/-\nend 3\n",
    },
    // seeks of the first track
    Row {
        cycles: 2,
        edits: &[Says::Locate(0), Says::Roll],
        entries: &[(2, 2, SEEKING, &[SILENT]), (2, 2, SEEKING, &[SILENT])],
        text: "report 1\nformat 48000 16 1 4 2\nedit 1 locate 0\nedit 2 roll\ncycle 1 2 2 seeking 1 1 -/-\n\
            cycle 2 2 2 seeking 1 1 -/-\nend 2\n",
    },
    // a take with a lost block, a stopped cycle, and one that wasn't made
    Row {
        cycles: 5,
        edits: &[],
        entries: &[
            (3, 3, FIRST, &[TAKEN, HEARD]),
            (3, 3, SECOND, &[SHORT_TAKEN, SHORT]),
            (3, 3, THIRD, &[SHORT_LOST, HEARD]),
            (4, 3, State::Stopped, &[SILENT, SILENT]),
        ],
        text: "report 1\nformat 48000 16 1 4 5\ncycle 1 3 3 rolling 0 0 h0/t1.0 h0/-\ncycle 2 3 3 rolling 0 1 s2/t1.1 s2/-\n\
            cycle 3 3 3 rolling 0 2 s2/l1.2.0 h0/-\ncycle 4 4 3 stopped -/- -/-\nend 4\n",
    },
];

fn journal(alloc: Global, row: &Row) -> Option<Journal> {
    let mut journal = Journal::new(alloc, row.cycles).ok()?;
    for (edition, settled, state, all) in row.entries {
        if journal.entries().len() >= journal.room() as usize {
            return None;
        }
        journal.note(Entry {
            edition: *edition,
            settled: *settled,
            state: *state,
            notes: ArrayVec::try_from(*all).ok()?,
        });
    }
    Some(journal)
}

fn edits(alloc: Global, row: &Row) -> Option<EditList> {
    let mut list = EditList::new(alloc, 8).ok()?;
    for says in row.edits {
        if list.is_full() {
            return None;
        }
        list.push(edit_of(*says));
    }
    Some(list)
}

// What a sink holds after the report of a row, and whether it was written. The writes whose numbers are listed fail.
fn written(alloc: Global, row: &Row, fails: &[u64]) -> Option<(MemSink, Result<(), Failed>)> {
    let head = ReportHead {
        rate: 48_000,
        bits: Bits::B16,
        channels: 1,
        block: 4,
        cycles: row.cycles,
    };
    let mut out = MemSink::new(alloc, fails.to_vec(alloc).ok()?);
    let result = write_report(&mut out, &head, &edits(alloc, row)?, &journal(alloc, row)?);
    Some((out, result))
}

fn row_holds<R: Abort>(rt: &R, at: usize, right: bool) {
    assert!(rt; right, "row {at}");
}

#[test]
fn each_run_has_its_report(rt: HostRuntime) {
    for (at, row) in ROWS.iter().enumerate() {
        let right = written(rt.alloc(), row, &[]).is_some_and(|(out, ended)| ended.is_ok()
            && out.bytes() == row.text.as_bytes());
        row_holds(&rt, at, right);
    }
}

#[test]
fn a_failed_write_leaves_a_front(rt: HostRuntime) {
    for (at, row) in ROWS.iter().enumerate() {
        let right = written(rt.alloc(), row, &[1]).is_some_and(|(out, ended)| ended == Err(Failed)
            && out.bytes().is_empty());
        row_holds(&rt, at, right);
    }
}

// What stands before the report of each row in out, what stands behind it, and the line where it begins.
const ROUND: [(&'static str, &'static str, u64); 5] = [
    ("", "", 1),
    ("ok 1\ndone\nok 2\ndone\nok 3\n", "", 6),
    ("ok 1\n", "", 2),
    ("", "error read-fault\n", 1),
    ("ok 1\nok 2\nok 3\n", "", 4),
];

// Whether a report is read back out of what a run wrote, and is written as it stood.
fn is_read_back(
    alloc: Global,
    row: &Row,
    round: &(&'static str, &'static str, u64),
) -> Option<bool> {
    let mut text = Vec::new(alloc);
    for part in [round.0, row.text, round.1] {
        text.extend_from_slice(part.as_bytes()).ok()?;
    }
    let report = read_report(alloc, text.as_slice()).ok()?;
    let mut out = MemSink::new(alloc, Vec::new(alloc));
    let written = write_report(&mut out, &report.head, &report.edits, &report.journal);
    Some(written.is_ok() && report.first_line == round.2 && out.bytes() == row.text.as_bytes())
}

#[test]
fn each_report_is_read_back_as_it_was_written(rt: HostRuntime) {
    for (at, (row, round)) in ROWS.iter().zip(ROUND.iter()).enumerate() {
        row_holds(&rt, at, is_read_back(rt.alloc(), row, round) == Some(true));
    }
}
