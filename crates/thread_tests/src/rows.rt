//! Worked runs: what control allows is made in its edition, what it waits for is heard, and a take is whole.
use crate::session::case_under;
use run_world::Faults;
use std::alloc::Global;
use std::process::Abort;
use std::sync::Wait;
use std::thread::Threads;
use thread_rows::{Case, Found, InMemory, found_of, threaded};

// More looks than are needed.
const PATIENCE: u64 = 100_000_000;

// What a run under these lines leaves in which nothing failed.
fn left_by<R>(rt: &R, alloc: Global, lines: &str, cycles: u32) -> Option<InMemory>
where
    R: Threads + Wait + Sync,
{
    let case: Case = case_under(alloc, lines, cycles, PATIENCE).ok()?;
    let left = threaded(rt, alloc, &case)?;
    if left.faults == Faults::default() {
        Some(left)
    } else {
        None
    }
}

// The edition of an entry, by its place from 0.
fn edition_at(left: &InMemory, place: usize) -> Option<u32> {
    match left.journal.entries().get(place) {
        Some(entry) => Some(entry.edition),
        None => None,
    }
}

// The first entry is of the first edition at least, and the second one, where it stands, of the second.
fn are_allowed(left: &InMemory) -> bool {
    let first = matches!(edition_at(left, 0), Some(edition) if edition >= 1);
    let second = match edition_at(left, 1) {
        Some(edition) => edition >= 2,
        None => true,
    };
    first && second && left.world.out.bytes() == b"ok 1\ndone\nok 2\ndone\nok 3\n".as_slice()
}

#[test]
fn threaded_allowances(rt: HostRuntime) {
    let left = left_by(&rt, rt.alloc(), "roll\nwait 1\nlocate 4\nwait 1\nquit\n", 2);
    assert!(rt; matches!(&left, Some(left) if are_allowed(left)));
}

// The entry that the last of two replies names, where it says that the first edition was heard.
fn synced(left: &InMemory) -> Option<usize> {
    let said = str::from_utf8(left.world.out.bytes()).ok()?;
    said.strip_prefix("ok 1\nsynced 1 ")?
        .trim_end()
        .parse()
        .ok()
}

// Whether that entry is settled.
fn is_heard(left: &InMemory) -> bool {
    match synced(left) {
        Some(entry) => match left.journal.entries().get(entry.saturating_sub(1)) {
            Some(entry) => entry.settled >= 1,
            None => false,
        },
        None => false,
    }
}

#[test]
fn threaded_sync(rt: HostRuntime) {
    let left = left_by(&rt, rt.alloc(), "roll\nsync\n", 200);
    assert!(rt; matches!(&left, Some(left) if is_heard(left)));
}

// Whether a take of three blocks is there: a header of 44 bytes and twelve samples.
fn is_taken(left: &InMemory) -> bool {
    match left.world.media.get("take-t-1.wav") {
        Some(take) => take.len() == 68,
        None => false,
    }
}

// What is found of a run that records three blocks.
fn found_of_takes<R>(rt: &R, alloc: Global) -> Found
where
    R: Threads + Wait + Sync,
{
    match case_under(alloc, TAKES, 5, PATIENCE) {
        Ok(case) => found_of(rt, alloc, &case),
        Err(_) => Found::NotRun,
    }
}

const TAKES: &str = "arm t on\nrecord on\nroll\nwait 3\nrecord off\n";

#[test]
fn threaded_takes(rt: HostRuntime) {
    let left = left_by(&rt, rt.alloc(), TAKES, 5);
    assert!(rt; matches!(&left, Some(left) if is_taken(left)));
    assert_eq!(rt; found_of_takes(&rt, rt.alloc()), Found::AsItHasToBe);
}
