//! Scripts of control, each run many times over.
use crate::session::case_under;
use std::alloc::Global;
use std::process::Abort;
use std::sync::Wait;
use std::thread::Threads;
use thread_rows::{Found, found_of};

// How often each is run.
const TIMES: u32 = 167;

// How many cycles are asked for.
const CYCLES: u32 = 8;

// Each run of a script is as it has to be.
fn hold<R>(rt: &R, alloc: Global, lines: &str, patience: u64)
where
    R: Abort + Threads + Wait + Sync,
{
    for _ in 0..TIMES {
        let is = match case_under(alloc, lines, CYCLES, patience) {
            Ok(case) => found_of(rt, alloc, &case),
            Err(_) => Found::NotRun,
        };
        assert_eq!(rt; is, Found::AsItHasToBe, "{lines}");
    }
}

#[test]
fn edits_come_while_the_process_plays(rt: HostRuntime) {
    let lines = "roll\ngain t 30000\nmute u on\nmute u off\nlocate 4\nremove t 1";
    hold(&rt, rt.alloc(), lines, 1);
}

#[test]
fn it_locates_twice(rt: HostRuntime) {
    let lines = "roll\nwait 2\nlocate 4\nwait 3\nlocate 0\nsync";
    hold(&rt, rt.alloc(), lines, 1_000);
}

#[test]
fn it_records_two_takes(rt: HostRuntime) {
    let lines = "arm t on\nrecord on\nroll\nwait 3\nstop\nwait 1\nroll";
    hold(&rt, rt.alloc(), lines, 1_000);
}

#[test]
fn it_quits(rt: HostRuntime) {
    hold(&rt, rt.alloc(), "roll\nsync\nwait 3\nquit", 100);
}

#[test]
fn regions_move_in_a_loop(rt: HostRuntime) {
    let lines = "loop 0 8\nroll\nwait 1\nmove t 1 4\nwait 1\ntrim u 1 0 8\nwait 1\nloop off";
    hold(&rt, rt.alloc(), lines, 10);
}

#[test]
fn all_is_allowed_at_the_end(rt: HostRuntime) {
    let lines = "locate 6\nroll\narm t on\nrecord on";
    hold(&rt, rt.alloc(), lines, 1_000);
}
