//! Each verify ends as it was worked out.
use crate::checking::ends_so;
use crate::finished::Check;
use crate::rows::{EDITS, FILES, JOURNALS, MASTERS, REPORTS};
use std::alloc::Global;
use std::process::Abort;
use std::sync::Wait;
use std::thread::Threads;

fn hold<R>(rt: &R, alloc: Global, checks: &[Check])
where
    R: Abort + Threads + Wait + Sync,
{
    for check in checks {
        assert!(rt; ends_so(rt, alloc, check), "{}", check.name);
    }
}

#[test]
fn runs_are_verified_as_they_were_left(rt: HostRuntime) {
    hold(&rt, rt.alloc(), FILES);
}

#[test]
fn a_line_that_no_report_has_is_told(rt: HostRuntime) {
    hold(&rt, rt.alloc(), REPORTS);
}

#[test]
fn an_edit_that_is_refused_is_told(rt: HostRuntime) {
    hold(&rt, rt.alloc(), EDITS);
}

#[test]
fn an_entry_that_is_not_lawful_is_told(rt: HostRuntime) {
    hold(&rt, rt.alloc(), JOURNALS);
}

#[test]
fn a_master_that_differs_is_told(rt: HostRuntime) {
    hold(&rt, rt.alloc(), MASTERS);
}
