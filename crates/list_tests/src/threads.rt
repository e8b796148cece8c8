//! One writer and two readers on three threads: whatever the schedule, a list that is entered begins the known one.
use crate::bench::{end, entered, is_at, new_lists, publish};
use crate::known::{is_known_from, known};
use edition_log::{Bound, Refusal};
use route_lists::{ListReader, Lists, PublishRefusal};
use ses_io::NoMemory;
use session_model::Edit;
use std::alloc::Global;
use std::sync::Wait;
use std::thread;
use std::thread::Threads;

// As many as have room.
const ALL: u32 = 10_000;

// How often a reader enters at most while the writer publishes.
const LOOKS: u32 = 1_000_000;

// Publishes the known list, and tells whether each edit made the edition of its number.
fn publish_all<'r, R: Wait>(lists: Lists<'r, R>) -> (Lists<'r, R>, bool) {
    let mut lists = lists;
    for at in 0..ALL {
        let (next, answer) = publish(lists, known(at));
        lists = next;
        if answer != Some(Ok(at + 1)) {
            return (lists, false);
        }
    }
    (lists, true)
}

// A reader that entered once more, and whether its list is no shorter, and goes on as the known one.
fn look(reader: ListReader) -> (ListReader, bool) {
    let before = reader.edition().number();
    let (reader, could) = entered(reader);
    let e = reader.edition();
    let goes_on = before <= e.number() && is_known_from(e, before);
    (reader, could && goes_on)
}

// Enters until all is seen, and tells whether each list went on as it has to.
fn look_on(reader: ListReader) -> (ListReader, bool) {
    let mut reader = reader;
    for _ in 0..LOOKS {
        let (next, goes_on) = look(reader);
        reader = next;
        if !goes_on {
            return (reader, false);
        }
        if reader.edition().number() == ALL {
            break;
        }
        thread::yield_now();
    }
    (reader, true)
}

// Whether a reader that enters once more has all edits and the end.
fn has_all<R: Wait>(reader: ListReader, lists: &Lists<R>) -> bool {
    let (reader, could) = entered(reader);
    let e = reader.edition();
    could && is_at(&reader, lists, ALL) && e.ended() && is_known_from(e, 0)
}

// Whether one edit more is refused and leaves the list, and readers have all of it once it ended.
fn is_whole<R: Wait>(lists: Lists<R>, first: ListReader, second: ListReader) -> bool {
    let (lists, answer) = publish(lists, Edit::Roll);
    let full = PublishRefusal::Refused(Refusal::Limit(Bound::Edits));
    let (lists, ended) = end(lists);
    answer == Some(Err(full)) && ended && has_all(first, &lists) && has_all(second, &lists)
}

// Whether all three see what they have to, beside one another and after that.
fn agree<R: Threads + Wait + Sync>(rt: &R, alloc: Global) -> Result<bool, NoMemory> {
    let (lists, first, second) = new_lists(rt, alloc)?;
    let ((first, one), ((second, other), (lists, published))) = thread::join(
        rt,
        move || look_on(first),
        move || thread::join(rt, move || look_on(second), move || publish_all(lists)),
    );
    Ok(one && other && published && is_whole(lists, first, second))
}

#[test]
fn readers_beside_the_writer_see_beginnings_of_its_list_and_then_all(rt: HostRuntime) {
    assert!(rt; agree(&rt, rt.alloc()) == Ok(true));
}
