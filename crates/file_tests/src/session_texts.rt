//! Texts that are read or refused. A row is what is answered, and lines of the base text, counted from 1, in other words.
mod keys;
mod largest;
mod read;
mod several;
mod written;

pub(crate) use read::is_base;
use ses_io::NoMemory;
use ses_units::Name;
use session_toml::{Key, Place, SessionFault, SessionRefusal, session_of};
use std::alloc::Global;

/// The base text, line by line.
const BASE: [&str; 24] = [
    "[session]",
    "version = 1",
    "rate = 48000",
    "bits = 16",
    "channels = 1",
    "block = 4",
    "depth = 2",
    "",
    "[[source]]",
    "name = \"a\"",
    "file = \"a.wav\"",
    "channels = 1",
    "",
    "[[track]]",
    "name = \"t\"",
    "channels = 1",
    "input = 0",
    "",
    "[[track.region]]",
    "id = 1",
    "source = \"a\"",
    "length = 8",
    "at = 0",
    "",
];

// The line of that number in other words, or else in its own. Each edit is a number, a colon and the words.
fn line_in<'a>(edits: &'a str, number: usize, own: &'a str) -> &'a str {
    for edit in edits.lines() {
        if let Some((at, words)) = edit.split_once(':')
            && at.parse::<usize>() == Ok(number)
        {
            return words;
        }
    }
    own
}

// Adds words, of which a bar ends a line.
fn write_line(text: &mut Vec<u8>, words: &str) -> Result<(), NoMemory> {
    for byte in words.as_bytes() {
        let byte = if *byte == b'|' { b'\n' } else { *byte };
        text.push(byte)?;
    }
    text.push(b'\n')?;
    Ok(())
}

/// The base text with some of its lines in other words.
pub(crate) fn edited(alloc: Global, edits: &str) -> Result<Vec<u8>, NoMemory> {
    let mut text = Vec::new(alloc);
    for (i, own) in BASE.iter().enumerate() {
        write_line(&mut text, line_in(edits, i + 1, own))?;
    }
    Ok(text)
}

// Whether words are a rule, and a place as its part, its row, and its item, which is 0 where it has none.
fn is_at(alloc: Global, rule: &str, place: Place, words: &str) -> bool {
    let Place { part, row, item } = place;
    match format!(in alloc; "{rule} {part:?} {row} {item}") {
        Ok(text) => text.as_str() == words,
        Err(_) => false,
    }
}

// Whether words are a rule, a place and a key.
fn is_of_key(alloc: Global, rule: &str, place: Place, key: Key, words: &str) -> bool {
    match (words.rsplit_once(' '), format!(in alloc; "{key:?}")) {
        (Some((before, last)), Ok(text)) => {
            text.as_str() == last && is_at(alloc, rule, place, before)
        }
        _ => false,
    }
}

// Whether words are a rule and a name.
fn is_named(rule: &str, name: &Name, words: &str) -> bool {
    words.split_once(' ') == Some((rule, name.as_str()))
}

// Whether words are this refusal.
fn is_refusal(alloc: Global, refusal: SessionRefusal, words: &str) -> bool {
    match refusal {
        SessionRefusal::Absent | SessionRefusal::TooLong(_) => false,
        SessionRefusal::NotToml => words == "not-toml",
        SessionRefusal::Unknown(place) => is_at(alloc, "unknown", place, words),
        SessionRefusal::Missing(place, key) => is_of_key(alloc, "missing", place, key, words),
        SessionRefusal::Kind(place, key) => is_of_key(alloc, "kind", place, key, words),
        SessionRefusal::Range(place, key) => is_of_key(alloc, "range", place, key, words),
        SessionRefusal::Twice(name) => is_named("twice", &name, words),
        SessionRefusal::SendTwice(name) => is_named("send-twice", &name, words),
        SessionRefusal::RegionTwice(name, id) => id == 1
            && is_named("region-1-twice", &name, words),
        SessionRefusal::NoSource(name) => is_named("no-source", &name, words),
        SessionRefusal::NoRoute(name) => is_named("no-route", &name, words),
        SessionRefusal::NotBus(name) => is_named("not-bus", &name, words),
        SessionRefusal::Channels(name) => is_named("channels", &name, words),
        SessionRefusal::Cycle(name) => is_named("cycle", &name, words),
    }
}

/// Whether this is answered for the bytes: the refusal in words, or `ok`.
fn is_told(alloc: Global, bytes: &[u8], words: &str) -> bool {
    match session_of(alloc, bytes).err() {
        None => words == "ok",
        Some(SessionFault::Refused(refusal)) => is_refusal(alloc, refusal, words),
        Some(SessionFault::NoMemory) => false,
    }
}

// Whether a row's first line is answered for the base text with the edits of its other lines.
fn is_right(alloc: Global, row: &str) -> bool {
    match row.split_once('\n') {
        Some((words, edits)) => match edited(alloc, edits) {
            Ok(text) => is_told(alloc, &text, words),
            Err(_) => false,
        },
        None => false,
    }
}

// How many rows of a table are right before the first that isn't. An empty line ends a row.
fn right_rows(alloc: Global, table: &str) -> usize {
    let mut right = 0usize;
    for row in table.split("\n\n") {
        if !is_right(alloc, row) {
            break;
        }
        right = right.saturating_add(1);
    }
    right
}

// Each table, and how many rows it has.
const TABLES: &[(&str, usize)] = &[
    keys::SESSION,
    keys::TRACK,
    keys::REGION,
    keys::DESK,
    several::RULES,
    several::SEVERAL,
];

#[test]
fn each_row_is_answered_as_it_was_worked_out(rt: HostRuntime) {
    for (table, rows) in TABLES {
        assert!(rt; right_rows(rt.alloc(), table) == *rows);
    }
}
