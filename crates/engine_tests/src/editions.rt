//! Edits by hand, up to the last that has room, and twins.
use crate::bench::{File, carry_out, opening, row_holds};
use edition_log::{Bound, Edition, Refusal};
use ses_io::{NoMemory, TryClone};
use session_model::Edit;
use std::alloc::Global;

// A session of the master alone.
const MASTER_ALONE: File = File {
    name: "s.toml",
    parts: &[
        b"[session]\nversion = 1\nrate = 48000\nbits = 16\nchannels = 1\nblock = 4\ndepth = 2\n",
    ],
};

const FAR: u64 = 1 << 40;

// Whether two edits are counted, and a refused one isn't.
fn counts(e: &mut Edition) -> bool {
    e.number() == 0
        && carry_out(e, Edit::Roll) == Some(Ok(1))
        && carry_out(e, Edit::Locate { to: 4 }) == Some(Ok(2))
        && carry_out(e, Edit::Locate { to: FAR }) == Some(Err(Refusal::Far(FAR)))
        && e.number() == 2
}

// Whether it plays as those edits say, and lists them.
fn shows(e: &Edition) -> bool {
    let transport = e.transport();
    transport.place(3) == 7
        && transport.generation == 1
        && transport.rolling
        && matches!(e.edits().as_slice(), [Edit::Roll, Edit::Locate { to: 4 }])
        && e.order().routes() == [0].as_slice()
}

// Whether edits count from one, until it ends.
fn counts_to_its_end(e: &mut Edition) -> bool {
    let right = counts(e) && shows(e);
    e.end();
    right && e.ended()
}

fn takes_ten_thousand(e: &mut Edition) -> bool {
    for k in 1..=10_000 {
        if carry_out(e, Edit::Locate { to: 7 }) != Some(Ok(k)) {
            return false;
        }
    }
    e.transport().generation == 10_000
}

// Whether it takes no edit; that comes before what else is wrong with one.
fn is_full(e: &mut Edition) -> bool {
    let full = Some(Err(Refusal::Limit(Bound::Edits)));
    carry_out(e, Edit::Roll) == full
        && carry_out(e, Edit::Locate { to: u64::MAX }) == full
        && e.transport().generation == 10_000
}

// Whether so many edits were accepted, and the last of them went to that place.
fn went(e: &Edition, number: u32, target: u64) -> bool {
    e.number() == number && e.transport().target == target
}

fn part(e: &mut Edition, other: &mut Edition) -> bool {
    went(other, 1, 0)
        && carry_out(other, Edit::Locate { to: 9 }) == Some(Ok(2))
        && went(e, 1, 0)
        && carry_out(e, Edit::Locate { to: 5 }) == Some(Ok(2))
        && went(other, 2, 9)
}

// Whether a clone goes its own way.
fn parts(alloc: Global, e: &mut Edition) -> Result<bool, NoMemory> {
    let rolls = carry_out(e, Edit::Roll) == Some(Ok(1));
    let mut other = e.try_clone(alloc)?;
    Ok(rolls && part(e, &mut other))
}

// What an edition of the master alone is tried for.
enum Subject {
    CountsFromOne,
    HasRoomForTenThousand,
    Parts,
}

fn holds(alloc: Global, e: &mut Edition, subject: &Subject) -> Result<bool, NoMemory> {
    match *subject {
        Subject::CountsFromOne => Ok(counts_to_its_end(e)),
        Subject::HasRoomForTenThousand => Ok(takes_ten_thousand(e) && is_full(e)),
        Subject::Parts => parts(alloc, e),
    }
}

fn is_right(alloc: Global, subject: &Subject) -> Result<bool, NoMemory> {
    match opening(alloc, &[MASTER_ALONE]) {
        Some(mut e) => holds(alloc, &mut e, subject),
        None => Err(NoMemory),
    }
}

const SUBJECTS: &[Subject] = &[
    Subject::CountsFromOne,
    Subject::HasRoomForTenThousand,
    Subject::Parts,
];

#[test]
fn edits_count_from_one_up_to_ten_thousand_and_a_clone_goes_its_own_way(rt: HostRuntime) {
    for (at, subject) in SUBJECTS.iter().enumerate() {
        row_holds(&rt, at, is_right(rt.alloc(), subject) == Ok(true));
    }
}
