//! A run on three threads, and the same one on one.
use crate::case::{Case, Fails, NOTHING, world_of};
use crate::judging::{Found, judged};
use crate::leaving::InMemory;
use crate::opening::opened;
use engine_core::run_events;
use std::alloc::Global;
use std::sync::Wait;
use std::thread::Threads;
use thread_run::play;

/// The same run on three threads and on one.
#[derive(Drop)]
pub struct Beside {
    /// On three.
    pub threaded: InMemory,
    /// On one, where what control reads and what is replied fail in the same way, and nothing else.
    pub serial: InMemory,
}

/// What a run leaves on three threads; None where it isn't run.
pub fn threaded<R>(rt: &R, alloc: Global, case: &Case) -> Option<InMemory>
where
    R: Threads + Wait + Sync,
{
    let world = world_of(alloc, case, &case.fails).ok()?;
    let o = opened(alloc, world, case.cycles)?;
    play(rt, alloc, o, case.patience.max(1)).ok()
}

// The same on one thread.
fn serial(alloc: Global, case: &Case) -> Option<InMemory> {
    let fails = Fails {
        control: case.fails.control,
        out: case.fails.out,
        ..NOTHING
    };
    let world = world_of(alloc, case, &fails).ok()?;
    let o = opened(alloc, world, case.cycles)?;
    run_events(alloc, o, &[]).ok()
}

/// What is found of a run on three threads.
pub fn found_of<R>(rt: &R, alloc: Global, case: &Case) -> Found
where
    R: Threads + Wait + Sync,
{
    match (threaded(rt, alloc, case), serial(alloc, case)) {
        (Some(threaded), Some(serial)) => judged(alloc, case, &Beside { threaded, serial }),
        (None, _) | (_, None) => Found::NotRun,
    }
}
