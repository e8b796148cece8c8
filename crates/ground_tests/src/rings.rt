//! Worked rows of a ring on one thread, where memory is ample. An item is told by the number of its cycle.
ghost use Rattle.std.specs.Prelude.{◌≡◌, ◌<◌, ◌≤◌, ℕ, false, IfOk};
ghost use Rattle.disk_ring.specs.Sender.{GoesOnIn};
ghost use Rattle.disk_ring.specs.Receiver.{GoesOnOut};
ghost use Rattle.disk_ring.specs.Rings.{IsNewRing};

use disk_ring::{Full, Nothing, RingIn, RingOut, ring};
use piece_item::Ack;
use ses_io::NoMemory;
use std::alloc::Global;

mod lists;
mod meetings;
mod threads;

/// A box of that number.
fn boxed(alloc: Global, number: u32) -> Result<Box<Ack>, NoMemory> {
    let ack = Ack {
        cycle: number,
        generation: 0,
        next: 0,
        settled: 0,
    };
    Ok(Box::new(alloc, ack)?)
}

/// The ends of a ring of so many boxes, each of number 0.
fn new_ring(alloc: Global, depth: u32) -> Result<(RingIn<Ack>, RingOut<Ack>), NoMemory>
    requires { 0 < depth }
    ensures ends { IfOk result (λ r. IsNewRing depth r.0 r.1) }
    ensures room { IfOk result (λ r. r.0.room ≡ 0) }
{
    let mut husks = Vec::new(alloc);
    for made in 0..depth {
        husks.push(boxed(alloc, 0)?)?;
    }
    let (to, from) = ring(alloc, depth, husks)?;
    Ok((to, from))
}

/// What a call answered, with the number of the box that came back.
#[derive(Clone, Copy, PartialEq)]
enum Answer {
    Put,
    Full { number: u32, head: u64 },
    Took { number: u32 },
    Empty { husk: u32, tail: u64 },
    Closed { husk: u32, tail: u64 },
}

fn put(to: &mut RingIn<Ack>, item: Box<Ack>) -> Answer
    requires open { to.old.closed ≡ false }
    requires room { to.old.room ≡ 0 }
    ensures { GoesOnIn to.old to.new }
{
    match to.put(item) {
        Ok(_husk) => Answer::Put,
        Err(Full { item, head }) => Answer::Full {
            number: item.cycle,
            head,
        },
    }
}

fn take(from: &mut RingOut<Ack>, husk: Box<Ack>) -> Answer
    requires room { from.old.room ≡ 0 }
    ensures { GoesOnOut from.old from.new }
{
    match from.take(husk) {
        Ok(item) => Answer::Took { number: item.cycle },
        Err(Nothing::Empty { husk, tail }) => Answer::Empty {
            husk: husk.cycle,
            tail,
        },
        Err(Nothing::Closed { husk, tail }) => Answer::Closed {
            husk: husk.cycle,
            tail,
        },
    }
}

/// A call, with what it has to answer.
enum Step {
    /// An item of that number is put.
    Put(u32, Answer),
    /// A box of that number is given to take an item.
    Take(u32, Answer),
}

/// The rows of a ring: its boxes, the calls while it is open, and those after it was closed.
struct Run {
    depth: u32,
    open: &'static [Step],
    closed: &'static [(u32, Answer)],
}

const RUNS: &[Run] = &[
    // filled, emptied, filled again in part, closed
    Run {
        depth: 2,
        open: &[
            Step::Put(1, Answer::Put),
            Step::Put(2, Answer::Put),
            Step::Put(3, Answer::Full { number: 3, head: 0 }),
            Step::Take(9, Answer::Took { number: 1 }),
            Step::Put(3, Answer::Put),
            Step::Take(9, Answer::Took { number: 2 }),
            Step::Take(9, Answer::Took { number: 3 }),
            Step::Take(9, Answer::Empty { husk: 9, tail: 3 }),
        ],
        closed: &[(8, Answer::Closed { husk: 8, tail: 3 })],
    },
    // four boxes hold four
    Run {
        depth: 4,
        open: &[
            Step::Put(1, Answer::Put),
            Step::Take(9, Answer::Took { number: 1 }),
            Step::Put(2, Answer::Put),
            Step::Put(3, Answer::Put),
            Step::Put(4, Answer::Put),
            Step::Put(5, Answer::Put),
            Step::Put(6, Answer::Full { number: 6, head: 1 }),
        ],
        closed: &[],
    },
    // closed comes after the items
    Run {
        depth: 2,
        open: &[Step::Put(1, Answer::Put)],
        closed: &[
            (9, Answer::Took { number: 1 }),
            (9, Answer::Closed { husk: 9, tail: 1 }),
        ],
    },
];

// Whether each call was answered as it says.
fn does_all(
    alloc: Global,
    to: &mut RingIn<Ack>,
    from: &mut RingOut<Ack>,
    steps: &[Step],
) -> Result<bool, NoMemory>
    requires open { to.old.closed ≡ false }
    requires room { (to.old.room ≡ 0) × (from.old.room ≡ 0) }
    ensures { from.new.room ≡ 0 }
{
    for step in steps {
        let right = match step {
            Step::Put(number, want) => put(to, boxed(alloc, *number)?) == *want,
            Step::Take(husk, want) => take(from, boxed(alloc, *husk)?) == *want,
        };
        if !right {
            return Ok(false);
        }
    }
    Ok(true)
}

fn takes_all(
    alloc: Global,
    from: &mut RingOut<Ack>,
    takes: &[(u32, Answer)],
) -> Result<bool, NoMemory>
    requires { from.old.room ≡ 0 }
{
    for (husk, want) in takes {
        if take(from, boxed(alloc, *husk)?) != *want {
            return Ok(false);
        }
    }
    Ok(true)
}

// Whether each call of a run was answered as it says.
fn is_right(alloc: Global, run: &Run) -> Result<bool, NoMemory> {
    if run.depth == 0 {
        return Ok(false);
    }
    let (mut to, mut from) = new_ring(alloc, run.depth)?;
    let open = does_all(alloc, &mut to, &mut from, run.open);
    to.close();
    let closed = takes_all(alloc, &mut from, run.closed);
    Ok(open == Ok(true) && closed == Ok(true))
}

#[test]
fn each_call_is_answered_as_it_was_worked_out(rt: HostRuntime) {
    assert!(rt; meetings::ends_answer(rt.alloc()) == Ok(true));
    assert!(rt; lists::second_is_found(rt.alloc()) == Ok(true));
    for run in RUNS {
        assert!(rt; is_right(rt.alloc(), run) == Ok(true));
    }
}
