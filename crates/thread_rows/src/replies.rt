//! Whether the replies of a run on threads are as they have to be: those of the run on one thread, but for what a `sync` was answered.
use cycle_journal::Journal;

// A number that a line says.
fn number(word: Option<&str>) -> Option<u32> {
    word?.parse().ok()
}

// The edition that the answer of a `sync` names, and the entry where it was heard; None of another reply.
fn sync_of(line: &str) -> Option<(u32, Option<u32>)> {
    let mut words = line.split(' ');
    match words.next() {
        Some("synced") => {
            let edition = number(words.next())?;
            let entry = number(words.next())?;
            Some((edition, Some(entry)))
        }
        Some("not") => match words.next() {
            Some("synced") => Some((number(words.next())?, None)),
            _ => None,
        },
        _ => None,
    }
}

// Whether an entry, by its number from 1, is settled up to an edition.
fn is_settled(journal: &Journal, entry: u32, edition: u32) -> bool {
    let place = entry.saturating_sub(1) as usize;
    match journal.entries().get(place) {
        Some(e) => e.settled >= edition,
        None => false,
    }
}

// Whether a reply stands for another one: what is synced is so.
fn stands_for(journal: &Journal, said: &str, serial: &str) -> bool {
    match (sync_of(said), sync_of(serial)) {
        (Some((edition, entry)), Some((wanted, _))) => {
            edition == wanted
                && match entry {
                    Some(entry) => is_settled(journal, entry, edition),
                    None => true,
                }
        }
        _ => said == serial,
    }
}

// Whether the replies stand for those of the run on one thread.
fn all_stand(journal: &Journal, said: &str, serial: &str) -> bool {
    if said.lines().count() != serial.lines().count() {
        return false;
    }
    for (line, other) in said.lines().zip(serial.lines()) {
        if !stands_for(journal, line, other) {
            return false;
        }
    }
    true
}

/// Whether the replies stand for those of the run on one thread.
pub(crate) fn are_replies(journal: &Journal, said: &[u8], serial: &[u8]) -> bool {
    match (str::from_utf8(said), str::from_utf8(serial)) {
        (Ok(said), Ok(serial)) => all_stand(journal, said, serial),
        _ => false,
    }
}
