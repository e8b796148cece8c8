//! Runs by hand over real rings. Each has its session and its steps, with what each step has to answer, and the files that it leaves.
mod faults;
mod recorded;

use crate::bench::{Fails, File, joined, media_of};
use crate::fixture::ButlerFixture;
use crate::steps::{Step, done};
use ses_io::{MemMedia, NoMemory};
use std::alloc::Global;
use std::process::Abort;

/// A file that a run leaves, in parts; None where there is none of that name.
pub(crate) struct Left {
    pub(crate) name: &'static str,
    pub(crate) parts: Option<&'static [&'static [u8]]>,
}

/// A run: its session's text, its files, what fails, how many cycles are asked for, the steps, and files that it leaves.
#[derive(Clone, Copy)]
pub(crate) struct Run {
    pub(crate) session: &'static [&'static [u8]],
    pub(crate) files: &'static [File],
    pub(crate) fails: Fails,
    pub(crate) cycles: u32,
    pub(crate) steps: &'static [Step],
    pub(crate) left: &'static [Left],
}

// Whether the file is as it was to be left.
fn is_left(alloc: Global, media: &MemMedia, left: &Left) -> Result<bool, NoMemory> {
    match (media.get(left.name), left.parts) {
        (Some(held), Some(parts)) => Ok(held == joined(alloc, parts)?.as_slice()),
        (None, None) => Ok(true),
        _ => Ok(false),
    }
}

// How many of the files are so, up to the first that isn't.
fn kept(alloc: Global, media: &MemMedia, files: &[Left]) -> Result<usize, NoMemory> {
    for (at, left) in files.iter().enumerate() {
        if !is_left(alloc, media, left)? {
            return Ok(at);
        }
    }
    Ok(files.len())
}

// A butler that did nothing yet.
fn begun(alloc: Global, run: &Run) -> Option<ButlerFixture<MemMedia>> {
    let media = media_of(alloc, run.files, run.fails).ok()?;
    let text = joined(alloc, run.session).ok()?;
    ButlerFixture::new(alloc, text.as_slice(), media, run.cycles.clamp(1, 100_000))
}

// How many steps are answered as they say, and how many files are left as they are to be, up to the first that isn't.
fn answered(alloc: Global, run: &Run) -> Option<(usize, usize)> {
    let mut fixture = begun(alloc, run)?;
    let steps = done(&mut fixture, alloc, run.steps).ok()?;
    let files = kept(alloc, &fixture.media(), run.left).ok()?;
    Some((steps, files))
}

// Each run is answered as it says.
fn hold<R: Abort>(rt: &R, alloc: Global, runs: &[Run]) {
    for (at, run) in runs.iter().enumerate() {
        let all = Some((run.steps.len(), run.left.len()));
        assert_eq!(rt; answered(alloc, run), all, "run {at}");
    }
}

#[test]
fn recorded_blocks_are_flushed_first(rt: HostRuntime) {
    hold(&rt, rt.alloc(), recorded::RUNS);
}

#[test]
fn a_fault_stops_what_it_met_and_nothing_else(rt: HostRuntime) {
    hold(&rt, rt.alloc(), faults::RUNS);
}
