//! Runs of which something fails, against their rows.
use crate::rows::{FAILING, ORDERED, REFUSED};
use run_rows::{Left, Row, left_of};
use std::alloc::Global;
use std::process::Abort;
use std::sync::Wait;
use std::thread::Threads;

fn hold<R>(rt: &R, alloc: Global, rows: &[Row])
where
    R: Abort + Threads + Wait + Sync,
{
    for row in rows {
        assert_eq!(rt; left_of(rt, alloc, row), Left::AsSaid, "{}", row.name);
    }
}

#[test]
fn the_first_thing_wrong_keeps_a_run_from_being_played(rt: HostRuntime) {
    hold(&rt, rt.alloc(), REFUSED);
}

#[test]
fn a_fault_leaves_what_was_made_before_it(rt: HostRuntime) {
    hold(&rt, rt.alloc(), FAILING);
}

#[test]
fn of_two_faults_the_first_in_order_is_told(rt: HostRuntime) {
    hold(&rt, rt.alloc(), ORDERED);
}
