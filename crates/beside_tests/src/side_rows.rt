//! Plays that end well only where butler and process run at once: each waits in the middle of its work for the other.
use crate::flags::{Flags, Meeting};
use crate::side_files::{control, input, media, sink};
use crate::side_media::FlagMedia;
use crate::side_opening::{start_of, with_control};
use crate::side_sink::FlagSink;
use crate::side_source::FlagSource;
use run_world::Faults;
use ses_io::{Media, Sink, Source};
use std::alloc::Global;
use std::sync::{Arc, Wait};
use std::thread::Threads;
use thread_run::play;

// How many cycles are asked for: the blocks of the input.
const CYCLES: u32 = 2;

// How often the process looks for a piece.
const PATIENCE: u64 = 100_000;

// Whether a play makes all its entries, without a fault.
fn plays_well<R, M, I, W>(rt: &R, alloc: Global, media: M, input: I, master: W) -> bool
where
    R: Threads + Wait + Sync,
    M: Media + Send,
    I: Source,
    W: Sink,
{
    let Ok(lines) = control(alloc) else {
        return false;
    };
    let Some(start) = start_of(alloc, media, input, master, CYCLES) else {
        return false;
    };
    match play(rt, alloc, with_control(start, lines, sink(alloc)), PATIENCE) {
        Ok(finished) => finished.journal.entries().len() == CYCLES as usize
            && finished.faults == Faults::default(),
        Err(_world) => false,
    }
}

// The butler's part of a meeting, its media, and the process's part.
fn parts(alloc: Global, flags: &Arc<Flags, Global>) -> Option<(FlagMedia, Meeting)> {
    let butler = Meeting::of_butler(Arc::try_clone(flags).ok()?);
    let process = Meeting::of_process(Arc::try_clone(flags).ok()?);
    Some((FlagMedia::new(media(alloc).ok()?, butler), process))
}

// Whether they meet where the butler reads the source, and the process its input.
fn meet_by_the_input<R: Threads + Wait + Sync>(rt: &R, alloc: Global) -> Option<bool> {
    let flags = Arc::new(alloc, Flags::new()).ok()?;
    let (media, process) = parts(alloc, &flags)?;
    let input = FlagSource::new(input(alloc).ok()?, process);
    let well = plays_well(rt, alloc, media, input, sink(alloc));
    Some(well && flags.both_seen())
}

// Whether they meet where the butler reads the source, and the process writes its master.
fn meet_by_the_master<R: Threads + Wait + Sync>(rt: &R, alloc: Global) -> Option<bool> {
    let flags = Arc::new(alloc, Flags::new()).ok()?;
    let (media, process) = parts(alloc, &flags)?;
    let master = FlagSink::new(sink(alloc), process);
    let well = plays_well(rt, alloc, media, input(alloc).ok()?, master);
    Some(well && flags.both_seen())
}

#[test]
fn workers_side_by_side(rt: HostRuntime) {
    assert!(rt; meet_by_the_input(&rt, rt.alloc()) == Some(true));
}

#[test]
fn workers_side_by_side_by_the_master(rt: HostRuntime) {
    assert!(rt; meet_by_the_master(&rt, rt.alloc()) == Some(true));
}
