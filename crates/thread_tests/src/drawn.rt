//! Drawn sessions under drawn scripts, where in one run of two something fails.
use std::alloc::Global;
use std::process::Abort;
use std::sync::Wait;
use std::thread::Threads;
use thread_rows::{Found, case_of, found_of};

// The runs of these numbers are as they have to be.
fn hold<R>(rt: &R, alloc: Global, from: u64, to: u64)
where
    R: Abort + Threads + Wait + Sync,
{
    for number in from..to {
        let is = match case_of(alloc, number) {
            Ok(case) => found_of(rt, alloc, &case),
            Err(_) => Found::NotRun,
        };
        assert_eq!(rt; is, Found::AsItHasToBe, "{number}");
    }
}

#[test]
fn two_hundred_drawn_runs_are_as_they_have_to_be(rt: HostRuntime) {
    hold(&rt, rt.alloc(), 0, 200);
}
