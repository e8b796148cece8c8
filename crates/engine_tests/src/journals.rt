//! Numbers of statuses by the table, and a journal that is filled to its room.
use crate::bench::row_holds;
use arrayvec::ArrayVec;
use audio_source::FileRefusal;
use cycle_journal::{Entry, InputRefusal, Journal, Note, Play, State, Status, Take};
use ses_io::NoMemory;
use ses_units::Name;
use session_model::SessionRefusal;
use std::alloc::Global;

// Whether each status has the number of the table.
fn are_numbered(takes: Name) -> bool {
    let differs = InputRefusal::RateDiffers {
        has: 44_100,
        want: 48_000,
    };
    let table = [
        (Status::Done, 0u8),
        (Status::Usage, 1),
        (Status::Session(SessionRefusal::Absent), 2),
        (Status::SourceFile(takes, FileRefusal::Absent), 3),
        (Status::ReadFault, 4),
        (Status::WriteFault, 5),
        (Status::InputFault, 6),
        (Status::MasterFault, 7),
        (Status::ControlFault, 8),
        (Status::OutFault, 9),
        (Status::Refuted(12), 10),
        (Status::BadReport(3), 11),
        (Status::BadInput(differs), 12),
        (Status::NoMemory, 13),
        (Status::TakesExist(takes), 14),
        (Status::ControlTooLong, 17),
    ];
    for (status, number) in &table {
        if status.number() != *number {
            return false;
        }
    }
    true
}

#[test]
fn each_status_has_the_number_of_the_table(rt: HostRuntime) {
    let right = match Name::new("take") {
        Ok(takes) => are_numbered(takes),
        Err(_) => false,
    };
    row_holds(&rt, 0, right);
}

const HEARD: Note = Note {
    play: Play::Heard(0),
    take: Take::Off,
};

const SHORT: Note = Note {
    play: Play::Short(2),
    take: Take::Lost {
        take: 1,
        index: 0,
        head: 2,
    },
};

// An entry of a cycle that rolled, with this one track.
fn rolled(seq: u32, note: Note) -> Entry {
    let mut notes = ArrayVec::new();
    notes.push(note);
    Entry {
        edition: 1,
        settled: 0,
        state: State::Rolling { generation: 1, seq },
        notes,
    }
}

fn is_rolled(e: &Entry, seq: u32, note: Note) -> bool {
    e.edition == 1
        && e.settled == 0
        && e.state == State::Rolling { generation: 1, seq }
        && e.notes.as_slice() == [note].as_slice()
}

fn has_both(journal: &Journal) -> bool {
    match journal.entries() {
        [first, second] => is_rolled(first, 0, HEARD) && is_rolled(second, 1, SHORT),
        _ => false,
    }
}

// Whether a journal is filled to its room.
fn is_filled(alloc: Global) -> Result<bool, NoMemory> {
    let mut journal = Journal::new(alloc, 2)?;
    let new = journal.room() == 2 && journal.entries().is_empty();
    journal.note(rolled(0, HEARD));
    journal.note(rolled(1, SHORT));
    Ok(new && journal.room() == 2 && has_both(&journal))
}

#[test]
fn a_journal_is_filled_to_its_room(rt: HostRuntime) {
    row_holds(&rt, 0, is_filled(rt.alloc()) == Ok(true));
}
