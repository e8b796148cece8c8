//! Whole runs against their rows.
use crate::rows::{CONTROLLED, LETTERED, RECORDED, SERIALLY, WORDED};
use run_rows::{Left, Row, left_of};
use std::alloc::Global;
use std::process::Abort;
use std::sync::Wait;
use std::thread::Threads;

fn hold<R>(rt: &R, alloc: Global, rows: &[Row])
where
    R: Abort + Threads + Wait + Sync,
{
    for row in rows {
        assert_eq!(rt; left_of(rt, alloc, row), Left::AsSaid, "{}", row.name);
    }
}

#[test]
fn a_run_without_letters_leaves_what_was_worked_out(rt: HostRuntime) {
    hold(&rt, rt.alloc(), SERIALLY);
    hold(&rt, rt.alloc(), CONTROLLED);
}

#[test]
fn a_run_by_letters_leaves_what_was_worked_out(rt: HostRuntime) {
    hold(&rt, rt.alloc(), LETTERED);
}

#[test]
fn words_are_read_as_they_stand(rt: HostRuntime) {
    hold(&rt, rt.alloc(), WORDED);
}

#[test]
fn takes_hold_the_input_of_recorded_cycles(rt: HostRuntime) {
    hold(&rt, rt.alloc(), RECORDED);
}
