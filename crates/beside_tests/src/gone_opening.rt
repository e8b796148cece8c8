//! The workers of a run, for threads that the caller starts.
ghost use Rattle.std.specs.Prelude.{◌≤◌, IfSome};
ghost use Rattle.play_worker.specs.Leaves.{IsReady};
ghost use Rattle.serve_worker.specs.Serves.{ServesAlone};

use crate::side_opening::start_of;
use ses_io::{Media, Sink, Source};
use std::alloc::Global;
use std::sync::Wait;
use thread_start::{Workers, ready};

/// The workers of a run of so many cycles, where all of it is opened.
pub(crate) fn workers<'r, R: Wait, M: Media, I: Source, W: Sink>(
    rt: &'r R,
    alloc: Global,
    media: M,
    input: I,
    master: W,
    cycles: u32,
) -> Option<Workers<'r, R, M, I, W>>
    requires some { 1 ≤ cycles }
    requires few { cycles ≤ 100000 }
    ensures plays { IfSome result (λ w. IsReady I.outside W.outside w.playing) }
    ensures serves { IfSome result (λ w. ServesAlone M.outside w.told w.serving) }
{
    let start = start_of(alloc, media, input, master, cycles)?;
    match ready(rt, alloc, start) {
        Ok(workers) => Some(workers),
        Err(_) => None,
    }
}
