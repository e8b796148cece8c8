//! Sessions of one source and one track that are opened, or refused by the first thing that is wrong.
mod rows;

use crate::bench::{block_range, failing_media, row_holds};
use audio_source::FileRefusal;
use command_words::{Command, command};
use rows::{Answer, ROWS, Row};
use ses_io::{MemMedia, NoMemory};
use ses_units::Name;
use session_model::SessionRefusal;
use session_opening::{Loaded, Unopened, open};
use std::alloc::Global;

// Whether blocks have four frames, and the first source one channel.
fn is_base(loaded: &Loaded) -> bool {
    loaded.edition.session().block == 4 && loaded.sources.channels(0) == Some(1)
}

// The refusal of source a.
fn refused_source(why: FileRefusal) -> Option<Unopened> {
    match Name::new("a") {
        Ok(name) => Some(Unopened::Source(name, why)),
        Err(_) => None,
    }
}

// The refusal of an answer.
fn refusal_of(answer: &Answer) -> Option<Unopened> {
    match *answer {
        Answer::Opens => None,
        Answer::Absent => Some(Unopened::Session(SessionRefusal::Absent)),
        Answer::BlockRange => Some(Unopened::Session(block_range())),
        Answer::Source(why) => refused_source(why),
        Answer::ReadFault => Some(Unopened::ReadFault),
    }
}

fn refuses(why: Unopened, answer: &Answer) -> bool {
    match refusal_of(answer) {
        Some(wanted) => why == wanted,
        None => false,
    }
}

// Whether the session of that name is opened over that media so.
fn answers(alloc: Global, media: &mut MemMedia, session: &str, answer: &Answer) -> bool {
    match open(alloc, media, session) {
        Ok(loaded) => matches!(*answer, Answer::Opens) && is_base(&loaded),
        Err(why) => refuses(why, answer),
    }
}

fn is_right(alloc: Global, row: &Row) -> Result<bool, NoMemory> {
    let Some(Command::Export(export)) = command(&["export", "s.toml", row.from, "2"]) else {
        return Ok(false);
    };
    let read = export.from == row.position && export.cycles == 2;
    let mut media = failing_media(alloc, row.files, row.bad_reads)?;
    Ok(read && answers(alloc, &mut media, export.session, &row.answer))
}

#[test]
fn each_session_is_opened_or_refused_as_the_row_says(rt: HostRuntime) {
    for (at, row) in ROWS.iter().enumerate() {
        row_holds(&rt, at, is_right(rt.alloc(), row) == Ok(true));
    }
}
