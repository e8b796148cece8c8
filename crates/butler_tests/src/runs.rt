//! Runs by hand over real rings. Each has its session and its steps, with what each step has to answer.
mod quiet;
mod revised;
mod sent;
mod sounds;

use crate::bench::{Fails, File, joined, media_of};
use crate::fixture::ButlerFixture;
use crate::steps::{Step, done};
use ses_io::MemMedia;
use std::alloc::Global;
use std::process::Abort;

/// A run: its session's text, its files, what fails, how many cycles are asked for, and the steps.
#[derive(Clone, Copy)]
pub(crate) struct Run {
    pub(crate) session: &'static [&'static [u8]],
    pub(crate) files: &'static [File],
    pub(crate) fails: Fails,
    pub(crate) cycles: u32,
    pub(crate) steps: &'static [Step],
}

// A butler that did nothing yet.
fn begun(alloc: Global, run: &Run) -> Option<ButlerFixture<MemMedia>> {
    let media = media_of(alloc, run.files, run.fails).ok()?;
    let text = joined(alloc, run.session).ok()?;
    ButlerFixture::new(alloc, text.as_slice(), media, run.cycles.clamp(1, 100_000))
}

// How many steps are answered as they say, up to the first that isn't.
fn answered(alloc: Global, run: &Run) -> Option<usize> {
    let mut fixture = begun(alloc, run)?;
    done(&mut fixture, alloc, run.steps).ok()
}

// Each run is answered as it says.
fn hold<R: Abort>(rt: &R, alloc: Global, runs: &[Run]) {
    for (at, run) in runs.iter().enumerate() {
        assert_eq!(rt; answered(alloc, run), Some(run.steps.len()), "run {at}");
    }
}

#[test]
fn what_is_due_of_three_tracks_is_sent(rt: HostRuntime) {
    hold(&rt, rt.alloc(), sent::RUNS);
}

#[test]
fn what_is_sent_of_an_older_playlist_is_sent_again(rt: HostRuntime) {
    hold(&rt, rt.alloc(), revised::RUNS);
}

#[test]
fn pieces_have_the_sound_of_their_places(rt: HostRuntime) {
    hold(&rt, rt.alloc(), sounds::RUNS);
}

#[test]
fn tracks_without_a_region_need_no_media(rt: HostRuntime) {
    hold(&rt, rt.alloc(), quiet::RUNS);
}

// Whether a butler fills its rings where the n-th call fails, and then answers as its steps say; None where a call failed before.
fn quiet_at(alloc: Global, n: u64) -> Option<usize> {
    let run = Run {
        fails: Fails::Call(n),
        ..quiet::FULL
    };
    let mut fixture = begun(alloc, &run)?;
    if done(&mut fixture, alloc, quiet::FILLS) != Ok(quiet::FILLS.len()) {
        return None;
    }
    done(&mut fixture, alloc, run.steps).ok()
}

#[test]
fn full_rings_cost_no_read(rt: HostRuntime) {
    let mut answer = None;
    for n in 1..100 {
        if answer.is_none() {
            answer = quiet_at(rt.alloc(), n);
        }
    }
    assert_eq!(rt; answer, Some(quiet::FULL.steps.len()));
}
