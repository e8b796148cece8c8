//! Edits that are refused: neither the writer nor a reader sees anything of them.
use crate::bench::{entered, is_at, new_lists, publish};
use edition_log::Refusal;
use route_lists::{ListReader, Lists, PublishRefusal};
use ses_io::NoMemory;
use ses_units::Name;
use session_model::Edit;
use std::alloc::Global;
use std::sync::Wait;

const FAR: u64 = 1 << 40;

// What a session of the master alone refuses while no loop is in force, with the reasons.
fn refused(nobody: Name) -> [(Edit, Refusal); 4] {
    [
        (
            Edit::Arm {
                track: nobody,
                on: true,
            },
            Refusal::NoRoute(nobody),
        ),
        (Edit::Locate { to: FAR }, Refusal::Far(FAR)),
        (Edit::Loop { from: 7, to: 7 }, Refusal::LoopEmpty),
        (Edit::LoopOff, Refusal::NoLoop),
    ]
}

// Whether the edit is refused for that reason, and writer and reader have one edit as before.
fn leaves_one<'r, R: Wait>(
    lists: Lists<'r, R>,
    reader: ListReader,
    row: &(Edit, Refusal),
) -> (Lists<'r, R>, ListReader, bool) {
    let (edit, why) = *row;
    let (lists, answer) = publish(lists, edit);
    let (reader, could) = entered(reader);
    let right = answer == Some(Err(PublishRefusal::Refused(why)))
        && could
        && lists.edition().number() == 1
        && is_at(&reader, &lists, 1)
        && matches!(reader.edition().edits().as_slice(), [Edit::Roll]);
    (lists, reader, right)
}

// Whether each is refused after one edit that isn't.
fn leave_one<R: Wait>(rt: &R, alloc: Global, nobody: Name) -> Result<bool, NoMemory> {
    let (lists, mut reader, _second) = new_lists(rt, alloc)?;
    let (mut lists, answer) = publish(lists, Edit::Roll);
    let mut all = answer == Some(Ok(1));
    for row in &refused(nobody) {
        let (next, same, right) = leaves_one(lists, reader, row);
        lists = next;
        reader = same;
        all = right && all;
    }
    Ok(all)
}

#[test]
fn a_refused_edit_leaves_the_list(rt: HostRuntime) {
    let Ok(nobody) = Name::new("nobody") else {
        panic!(rt; "six letters are a name");
    };
    assert!(rt; leave_one(&rt, rt.alloc(), nobody) == Ok(true));
}
