//! Writer and readers on one thread, where a reader that enters has all that was published.
ghost use Rattle.std.specs.Prelude.{◌≡◌, ◌<◌};

use crate::bench::{end, entered, is_at, new_lists, publish};
use crate::known::{is_known_from, known};
use route_lists::{ListReader, Lists};
use ses_io::NoMemory;
use session_model::Edit;
use std::alloc::Global;
use std::sync::Wait;

// So many edits that each of a reader's two editions takes in some of the other's.
const FEW: u32 = 7;

// Whether the known list goes on with that edit, which a reader sees once it enters, but not before.
fn one_more<'r, R: Wait>(
    lists: Lists<'r, R>,
    reader: ListReader,
    at: u32,
) -> (Lists<'r, R>, ListReader, bool)
    requires { at < FEW }
{
    let (lists, answer) = publish(lists, known(at));
    let unseen = !reader.is_at(&lists) && reader.edition().number() == at;
    let (reader, could) = entered(reader);
    let right = answer == Some(Ok(at + 1)) && unseen && could && is_at(&reader, &lists, at + 1);
    (lists, reader, right)
}

// Whether each of several edits is seen as soon as it is published.
fn follows<R: Wait>(lists: Lists<R>, reader: ListReader) -> bool {
    let mut lists = lists;
    let mut reader = reader;
    let mut all = true;
    for at in 0..FEW {
        let (next, later, right) = one_more(lists, reader, at);
        lists = next;
        reader = later;
        all = right && all;
    }
    all && is_known_from(reader.edition(), 0)
}

// Whether a reader that was told of the new list enters it, and goes on.
fn learns<R: Wait>(lists: Lists<R>, reader: ListReader) -> bool
    requires { reader.table ≡ lists.table }
{
    let mut lists = lists;
    let mut reader = reader;
    reader.learn(&mut lists);
    let (reader, could) = entered(reader);
    could && is_at(&reader, &lists, 0) && follows(lists, reader)
}

// Whether the reader has the three edits that were published, and their end.
fn has_three<R: Wait>(reader: &ListReader, lists: &Lists<R>) -> bool {
    let e = reader.edition();
    is_at(reader, lists, 3)
        && e.ended()
        && matches!(
            e.edits().as_slice(),
            [Edit::Roll, Edit::Locate { to: 4 }, Edit::Stop]
        )
}

// Whether the reader enters the whole list, and the same once more.
fn enters_twice<R: Wait>(reader: ListReader, lists: &Lists<R>) -> bool {
    let (reader, could) = entered(reader);
    let first = could && has_three(&reader, lists);
    let (reader, could) = entered(reader);
    first && could && has_three(&reader, lists)
}

// Whether both readers have all of a list that ended, of which the first had seen all but the end.
fn ends<R: Wait>(lists: Lists<R>, first: ListReader, second: ListReader) -> bool {
    let (lists, _rolled) = publish(lists, Edit::Roll);
    let (lists, _located) = publish(lists, Edit::Locate { to: 4 });
    let (lists, stopped) = publish(lists, Edit::Stop);
    let (first, could) = entered(first);
    let unended = could && is_at(&first, &lists, 3) && !first.edition().ended();
    let (lists, ended) = end(lists);
    stopped == Some(Ok(3))
        && unended
        && ended
        && !first.is_at(&lists)
        && enters_twice(first, &lists)
        && enters_twice(second, &lists)
}

// Whether a reader whose writer is gone stays as it was.
fn stays<R: Wait>(lists: Lists<R>, reader: ListReader) -> bool {
    let (lists, _rolled) = publish(lists, Edit::Roll);
    let (reader, could) = entered(reader);
    let (lists, _stopped) = publish(lists, Edit::Stop);
    drop(lists);
    let (reader, still) = entered(reader);
    could && !still && matches!(reader.edition().edits().as_slice(), [Edit::Roll])
}

// What new lists are tried for.
enum Subject {
    Learns,
    Ends,
    Stays,
}

fn holds<R: Wait>(rt: &R, alloc: Global, subject: &Subject) -> Result<bool, NoMemory> {
    let (lists, first, second) = new_lists(rt, alloc)?;
    Ok(match *subject {
        Subject::Learns => learns(lists, first),
        Subject::Ends => ends(lists, first, second),
        Subject::Stays => stays(lists, second),
    })
}

const SUBJECTS: &[Subject] = &[Subject::Learns, Subject::Ends, Subject::Stays];

#[test]
fn a_reader_that_enters_has_all_that_was_published(rt: HostRuntime) {
    for (at, subject) in SUBJECTS.iter().enumerate() {
        assert!(rt; holds(&rt, rt.alloc(), subject) == Ok(true), "row {at}");
    }
}
