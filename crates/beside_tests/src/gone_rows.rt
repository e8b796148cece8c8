//! Workers whose list is gone: nobody can publish in it any more, and each ends by itself.
use crate::gone_opening::workers;
use crate::gone_running::{FEW, Left, both, with_a_loss};
use crate::side_files::{input, media, sink};
use play_worker::Ended;
use run_bells::Bells;
use run_world::Grant;
use serve_worker::ServeEnd;
use ses_io::{MemMedia, MemSink, MemSource};
use std::alloc::Global;
use std::sync::Wait;
use std::thread::Threads;
use thread_start::Workers;

// How many cycles are asked for, and allowed.
const CYCLES: u32 = 100_000;

// What is left in memory.
type InMemory = Left<MemMedia, MemSource, MemSink>;

// How many entries were made.
fn entries(left: &InMemory) -> u64 {
    left.played.process.journal.entries().len() as u64
}

// What is left where the list goes before any worker begins. All cycles are allowed.
fn lost_before<R: Threads + Wait + Sync>(rt: &R, alloc: Global) -> Option<InMemory> {
    let (Ok(media), Ok(input)) = (media(alloc), input(alloc)) else {
        return None;
    };
    let Workers {
        playing,
        serving,
        told,
        lists,
        mut granting,
        acks: _,
    } = workers(rt, alloc, media, input, sink(alloc), CYCLES)?;
    let grant = Grant {
        cycles: CYCLES,
        edition: 0,
    };
    if granting.allow(grant).is_err() {
        return None;
    }
    drop(lists);
    let bells = Bells::new();
    Some(both(rt, &told, serving, playing, &bells))
}

// What is left where the list goes while the workers run.
fn lost_meanwhile<R: Threads + Wait + Sync>(rt: &R, alloc: Global) -> Option<InMemory> {
    let (Ok(media), Ok(input)) = (media(alloc), input(alloc)) else {
        return None;
    };
    let Workers {
        playing,
        serving,
        told,
        lists,
        granting,
        acks: _,
    } = workers(rt, alloc, media, input, sink(alloc), CYCLES)?;
    let bells = Bells::new();
    Some(with_a_loss(rt, lists, granting, CYCLES, &told, serving, playing, &bells))
}

// Whether both were refused at once.
fn is_refused_at_once(left: &InMemory) -> bool {
    left.played.ended == Ended::Refused
        && entries(left) == 0
        && !left.played.cut_off
        && left.served.1 == ServeEnd::Refused
}

// Whether the process ended as it may where the list goes after a few entries, or after all. A process that was refused closes its
// rings after that, so the butler is refused too.
fn is_refused_later(left: &InMemory) -> bool {
    let made = entries(left);
    let so = match left.played.ended {
        Ended::Refused => FEW <= made && left.served.1 == ServeEnd::Refused,
        Ended::All => made == u64::from(CYCLES),
        Ended::Quit | Ended::Stopped(_) => false,
    };
    so && !left.played.cut_off
}

#[test]
fn the_list_is_gone_before_the_workers_begin(rt: HostRuntime) {
    let so = match lost_before(&rt, rt.alloc()) {
        Some(left) => is_refused_at_once(&left),
        None => false,
    };
    assert!(rt; so);
}

#[test]
fn the_list_goes_while_the_workers_run(rt: HostRuntime) {
    let so = match lost_meanwhile(&rt, rt.alloc()) {
        Some(left) => is_refused_later(&left),
        None => false,
    };
    assert!(rt; so);
}
