//! One call of one object fails, at each place in turn, up to the one that a run doesn't come to.
use crate::standing::{Object, is_its_own, is_right, is_unplayed};
use run_rows::{EXPORT, Ended, Fails, NOTHING, ONE_TAKE, Row, SERIAL, WAIT_THEN_LOCATE, ran};
use std::alloc::Global;
use std::sync::Wait;
use std::thread::Threads;

fn fails_of(object: Object, calls: &[u64]) -> Fails<'_> {
    match object {
        Object::Input => Fails {
            input: calls,
            ..NOTHING
        },
        Object::Control => Fails {
            control: calls,
            ..NOTHING
        },
        Object::Master => Fails {
            master: calls,
            ..NOTHING
        },
        Object::Out => Fails {
            out: calls,
            ..NOTHING
        },
        Object::Media => Fails {
            media: calls,
            ..NOTHING
        },
    }
}

// How a run went of which one call of one object was to fail.
#[derive(Clone, Copy, Debug, PartialEq, Eq)]
enum Fell {
    // It failed before anything was played, and nothing is left.
    Before,
    // The run doesn't come to that call.
    Never,
    // What the run leaves is right.
    Right,
    Wrong,
}

fn fell_by(alloc: Global, row: &Row, object: Object, ended: &Ended) -> Fell {
    let status = ended.status.number();
    if status == 0 {
        return Fell::Never;
    }
    if !is_its_own(object, status) {
        return Fell::Wrong;
    }
    match &ended.journal {
        None if is_unplayed(ended) => Fell::Before,
        Some(journal) if is_right(alloc, row, object, ended, journal.entries()) => Fell::Right,
        _ => Fell::Wrong,
    }
}

fn fell_at<R>(rt: &R, alloc: Global, row: &Row, object: Object, call: u64) -> Fell
where
    R: Threads + Wait + Sync,
{
    let calls = [call];
    match ran(rt, alloc, row, &fails_of(object, &calls)) {
        Some(ended) => fell_by(alloc, row, object, &ended),
        None => Fell::Wrong,
    }
}

// How many calls of an object a run makes, each of which fails in turn.
#[derive(Clone, Copy, Debug, PartialEq, Eq)]
struct Calls {
    before: u32,
    played: u32,
}

// None where what one of those runs leaves isn't right.
fn failed<R>(rt: &R, alloc: Global, row: &Row, object: Object) -> Option<Calls>
where
    R: Threads + Wait + Sync,
{
    let mut calls = Calls {
        before: 0,
        played: 0,
    };
    for call in 1..=100 {
        match fell_at(rt, alloc, row, object, call) {
            Fell::Before => calls.before = calls.before.saturating_add(1),
            Fell::Never => return Some(calls),
            Fell::Right => calls.played = calls.played.saturating_add(1),
            Fell::Wrong => return None,
        }
    }
    None
}

/// The session and its source are looked at.
const CHECK: Row = Row {
    name: "check",
    words: &["check", "s.toml"],
    ..SERIAL
};

// A row, an object, and how many calls of it a run makes: before it is played one that finds an empty input or four for the head of one,
// and then for the master's header and each of its blocks, for each block of an input that there is, for each reply, and for a report that
// is short. Of the media two for the session, its size and its text, five for the source, its size and the four parts of its head, and of a
// play one more, for takes that are there; then one for the source's one line, which has as many frames as its head tells, and of a take one for the
// header of no blocks, one for each block, one for the header of the first block, and one for that of all.
const TABLE: &[(Row, Object, u32, u32)] = &[
    (EXPORT, Object::Input, 1, 0),
    (EXPORT, Object::Control, 0, 0),
    (EXPORT, Object::Master, 0, 3),
    (EXPORT, Object::Out, 0, 1),
    (EXPORT, Object::Media, 7, 1),
    (CHECK, Object::Media, 7, 0),
    (WAIT_THEN_LOCATE, Object::Input, 1, 0),
    (WAIT_THEN_LOCATE, Object::Master, 0, 3),
    (WAIT_THEN_LOCATE, Object::Out, 0, 6),
    (WAIT_THEN_LOCATE, Object::Media, 8, 1),
    (ONE_TAKE, Object::Input, 4, 2),
    (ONE_TAKE, Object::Master, 0, 3),
    (ONE_TAKE, Object::Out, 0, 4),
    (ONE_TAKE, Object::Media, 8, 6),
];

#[test]
fn each_call_that_fails_leaves_what_came_before_it(rt: HostRuntime) {
    for entry in TABLE {
        let (row, object, before, played) = *entry;
        let calls = failed(&rt, rt.alloc(), &row, object);
        let want = Calls { before, played };
        assert_eq!(rt; calls, Some(want), "{} {:?}", row.name, object);
    }
}

// How often control is called isn't said.
#[test]
fn each_call_of_control_that_fails_does_too(rt: HostRuntime) {
    for row in [WAIT_THEN_LOCATE, ONE_TAKE] {
        let calls = failed(&rt, rt.alloc(), &row, Object::Control);
        let right = calls.is_some_and(|calls| calls.before == 0 && calls.played > 0);
        assert!(rt; right, "{} control {:?}", row.name, calls);
    }
}
