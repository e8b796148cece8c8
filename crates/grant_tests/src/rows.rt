//! Rows of a ring of two boxes on one thread: what each end answers to calls in this order, worked out by hand.
ghost use Rattle.std.specs.Prelude.{◌≡◌, ◌<◌, ◌≤◌, [], false, IfOk};

use cycle_grants::{Allowance, Granting, NotGranted};
use disk_ring::{RingIn, RingOut, ring};
use run_world::Grant;
use ses_io::NoMemory;
use std::alloc::Global;

const DEPTH: u32 = 2;

fn boxed(alloc: Global) -> Result<Box<Grant>, NoMemory> {
    let grant = Grant {
        cycles: 0,
        edition: 0,
    };
    Ok(Box::new(alloc, grant)?)
}

// The ends of a ring.
fn new_ring(alloc: Global) -> Result<(RingIn<Grant>, RingOut<Grant>), NoMemory>
    ensures open { IfOk result (λ r. (r.0.closed ≡ false) × (r.0.room ≡ 0)) }
    ensures fresh { IfOk result (λ r. (r.1.received ≡ []) × (r.1.room ≡ 0)) }
{
    let mut husks = Vec::new(alloc);
    for _made in 0..DEPTH {
        husks.push(boxed(alloc)?)?;
    }
    let (to, from) = ring(alloc, DEPTH, husks)?;
    Ok((to, from))
}

/// A call, with what it has to answer.
#[derive(Clone, Copy)]
enum Step {
    /// So many cycles are allowed in that edition.
    Allow(u32, u32, Result<(), NotGranted>),
    /// The same, and where the ring is full it is left out.
    LeaveOut(u32, u32, Result<(), NotGranted>),
    /// An allowance is waited for where so many cycles were made, with so many tries; then the newest
    /// edition of a grant.
    Await(u32, u64, u32),
}

const RUNS: &[&[Step]] = &[
    // three grants: the third finds the ring full, and room once the two were taken; the newest edition is the greatest
    &[
        Step::Allow(3, 3, Ok(())),
        Step::Allow(1, 1, Ok(())),
        Step::Allow(5, 4, Err(NotGranted::Full { head: 0 })),
        Step::Await(0, 2, 3),
        Step::Allow(5, 4, Ok(())),
        Step::Await(4, 2, 4),
    ],
    // patience is lost: none is waited for any more, however many tries there were, but those that are there are taken
    &[
        Step::Await(0, 3, 0),
        Step::Await(1, u64::MAX, 0),
        Step::Allow(9, 2, Ok(())),
        Step::Await(2, u64::MAX, 2),
        Step::Await(100_000, u64::MAX, 2),
    ],
    // with no tries at all
    &[Step::Await(0, 0, 0), Step::Await(0, u64::MAX, 0)],
    // while a grant allows a cycle no further one is waited for
    &[
        Step::Allow(u32::MAX, 7, Ok(())),
        Step::Await(0, u64::MAX, 7),
        Step::Await(100_000, u64::MAX, 7),
    ],
    // after one that was left out none is put, though there is room
    &[
        Step::Allow(1, 1, Ok(())),
        Step::Allow(1, 2, Ok(())),
        Step::LeaveOut(1, 3, Err(NotGranted::Full { head: 0 })),
        Step::Await(0, 1, 2),
        Step::Allow(1, 4, Err(NotGranted::LeftOut)),
    ],
];

fn allow(granting: &mut Granting, grant: Grant, leaves: bool) -> Result<(), NotGranted> {
    let answer = granting.allow(grant);
    if let Err(NotGranted::Full { head: _ }) = answer {
        if leaves {
            granting.leave_out();
        }
    }
    answer
}

// Whether each call was answered as it says.
fn does_all(granting: &mut Granting, allowance: &mut Allowance, steps: &[Step]) -> bool {
    for step in steps {
        let right = match *step {
            Step::Allow(cycles, edition, want) => {
                allow(granting, Grant { cycles, edition }, false) == want
            }
            Step::LeaveOut(cycles, edition, want) => {
                allow(granting, Grant { cycles, edition }, true) == want
            }
            Step::Await(made, patience, floor) => {
                if made <= 100_000 {
                    allowance.await_cycle(made, patience);
                }
                allowance.floor() == floor
            }
        };
        if !right {
            return false;
        }
    }
    true
}

// Whether each call of a run was answered as it says.
fn is_right(alloc: Global, steps: &[Step]) -> Result<bool, NoMemory> {
    let (to, from) = new_ring(alloc)?;
    let mut granting = Granting::new(to, boxed(alloc)?);
    let mut allowance = Allowance::new(from, boxed(alloc)?);
    Ok(does_all(&mut granting, &mut allowance, steps))
}

#[test]
fn each_call_is_answered_as_it_was_worked_out(rt: HostRuntime) {
    for steps in RUNS {
        assert!(rt; is_right(rt.alloc(), steps) == Ok(true));
    }
}
