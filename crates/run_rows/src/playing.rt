//! A row is run by its words.
use crate::row::{Fails, Row};
use crate::world::{Memory, world_of};
use ses_io::{MemMedia, MemSink, MemSource};
use session_run::{Outcome, run};
use std::alloc::Global;
use std::sync::Wait;
use std::thread::Threads;

/// What a run in memory leaves.
pub type Ended = Outcome<MemMedia, MemSource, MemSource, MemSink, MemSink>;

/// What these words leave in a world.
pub fn ran_by<R>(rt: &R, alloc: Global, words: &[&str], world: Memory) -> Ended
where
    R: Threads + Wait + Sync,
{
    run(rt, alloc, words, world)
}

// An export from a position.
fn exported<R>(rt: &R, alloc: Global, from: u64, cycles: &str, world: Memory) -> Option<Ended>
where
    R: Threads + Wait + Sync,
{
    let from = format!(in alloc; "{from}").ok()?;
    let words = ["export", "s.toml", from.as_str(), cycles];
    Some(ran_by(rt, alloc, &words, world))
}

// A play on one thread, by letters where there are some.
fn played<R>(rt: &R, alloc: Global, letters: &str, cycles: &str, world: Memory) -> Ended
where
    R: Threads + Wait + Sync,
{
    if letters.is_empty() {
        ran_by(rt, alloc, &["play", "s.toml", cycles, "--serial"], world)
    } else {
        let words = ["play", "s.toml", cycles, "--steps", letters];
        ran_by(rt, alloc, &words, world)
    }
}

/// What a run of a row leaves in a world; None where it isn't run.
pub fn ran_in<R>(rt: &R, alloc: Global, row: &Row, world: Memory) -> Option<Ended>
where
    R: Threads + Wait + Sync,
{
    if !row.words.is_empty() {
        return Some(ran_by(rt, alloc, row.words, world));
    }
    let cycles = format!(in alloc; "{}", row.cycles).ok()?;
    match row.from {
        Some(from) => exported(rt, alloc, from, cycles.as_str(), world),
        None => Some(played(rt, alloc, row.letters, cycles.as_str(), world)),
    }
}

/// What a run of a row leaves, where this fails; None where it isn't run.
pub fn ran<R>(rt: &R, alloc: Global, row: &Row, fails: &Fails<'_>) -> Option<Ended>
where
    R: Threads + Wait + Sync,
{
    ran_in(rt, alloc, row, world_of(alloc, row, fails).ok()?)
}
