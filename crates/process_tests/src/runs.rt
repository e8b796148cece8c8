//! Runs by hand over real rings. Each has its input, what fails, its steps with what each has to answer, and the master that it leaves.
ghost use Rattle.std.specs.Prelude.{◌≡◌, ◌≤◌, [], IfSome};
ghost use Rattle.process_tests.specs.Bench.{IsOpened};

mod editions;
mod faults;
mod takes;

use crate::bench::ProcessBench;
use crate::opening::{Fails, Given, ends_of, open_session};
use crate::other_ends::OtherEnds;
use crate::sessions::SESSION;
use crate::steps::{Step, done};
use ses_io::{MemSink, MemSource, NoMemory};
use std::alloc::Global;
use std::process::Abort;

/// A run: its input and the frames that the input's head tells, what fails, how many cycles are asked for, the steps, and the
/// parts of the master.
#[derive(Clone, Copy)]
pub(crate) struct Run {
    pub(crate) input: &'static [u8],
    pub(crate) frames: u16,
    pub(crate) fails: Fails,
    pub(crate) cycles: u32,
    pub(crate) steps: &'static [Step],
    pub(crate) master: &'static [&'static [u8]],
}

const NO_FAULT: Fails = Fails {
    reads: &[],
    writes: &[],
};

// The parts one after the other.
fn joined(alloc: Global, parts: &[&[u8]]) -> Result<Vec<u8>, NoMemory> {
    let mut whole = Vec::new(alloc);
    for part in parts {
        whole.extend_from_slice(part)?;
    }
    Ok(whole)
}

// What the process of a run is given.
fn given(alloc: Global, run: &Run) -> Option<Given<MemSource, MemSink>>
    ensures opened { IfSome result (λ g. IsOpened g.opened.session g.opened.edition) }
    ensures cycles { IfSome result (λ g. g.cycles ≤ 100000) }
    ensures input { IfSome result (λ g. g.input.left ≡ g.start.items) }
    ensures master { IfSome result (λ g. g.master.held ≡ []) }
{
    let (start, input, master) = ends_of(alloc, run.input, &run.fails).ok()?;
    let opened = open_session(alloc, SESSION)?;
    Some(Given {
        opened,
        cycles: run.cycles.min(100_000),
        start,
        input,
        frames: run.frames,
        master,
    })
}

// The process of a run, and the other ends of its rings.
fn begun(alloc: Global, run: &Run) -> Option<(ProcessBench<MemSource, MemSink>, OtherEnds)> {
    ProcessBench::new(alloc, given(alloc, run)?)
}

// Whether a master is of these parts.
fn is_left(alloc: Global, master: &MemSink, parts: &[&[u8]]) -> Option<bool> {
    let whole = joined(alloc, parts).ok()?;
    Some(master.bytes() == whole.as_slice())
}

// How many steps are answered as they say, up to the first that isn't, and whether the master is as it was to be left.
fn answered(alloc: Global, run: &Run) -> Option<(usize, bool)> {
    let (mut bench, mut ends) = begun(alloc, run)?;
    let steps = done(&mut bench, &mut ends, alloc, run.steps).ok()?;
    let right = is_left(alloc, &bench.master(), run.master)?;
    Some((steps, right))
}

// Each run is answered as it says.
fn hold<R: Abort>(rt: &R, alloc: Global, runs: &[Run]) {
    for (at, run) in runs.iter().enumerate() {
        assert_eq!(rt;
            answered(alloc, run),
            Some((run.steps.len(), true)),
            "run {at}"
        );
    }
}

#[test]
fn an_entry_is_of_the_edition_that_was_given_last(rt: HostRuntime) {
    hold(&rt, rt.alloc(), editions::RUNS);
}

#[test]
fn blocks_of_takes_are_counted_and_those_lost_are_noted(rt: HostRuntime) {
    hold(&rt, rt.alloc(), takes::RUNS);
}

#[test]
fn after_a_fault_no_entry_is_made_and_nothing_captured(rt: HostRuntime) {
    hold(&rt, rt.alloc(), faults::RUNS);
}
