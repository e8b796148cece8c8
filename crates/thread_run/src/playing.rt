//! A play on three threads.
ghost use Rattle.std.specs.Prelude.{◌≡◌, ◌≤◌, None, IfOk, IfErr};
ghost use Rattle.run_end.specs.Beginning.{MayRun, started_of};
ghost use Rattle.run_end.specs.Finished.{FaultsAreCounted, LeavesRings, SendsGenuine, run_end_of};
ghost use Rattle.run_end.specs.Mastered.{InputGave, MakesItsCycles, WritesTheMaster};
ghost use Rattle.run_end.specs.Takes.{LeavesTakes};
ghost use Rattle.thread_run.specs.Beginning.{HaveAllBegun};
ghost use Rattle.thread_run.specs.Fronts.{LeavesFronts};
ghost use Rattle.thread_run.specs.Leaving.{Asked, IsLeft};
ghost use Rattle.thread_run.specs.Playing.{IfEnough, PlaysItsLines};

use crate::beginning::{Crew, begin};
use crate::ending::finish;
use crate::side_by_side::side_by_side;
use lead_worker::heard_is_true;
use master_blocks::the_master_is_its_blocks;
use run_bells::Bells;
use run_world::{Finished, Opened};
use ses_io::{Media, Sink, Source, World};
use std::alloc::Global;
use std::sync::Wait;
use std::thread::Threads;

// Has a crew play.
fn played<'r, R, M, I, C, W, O>(
    rt: &R,
    crew: Crew<'r, R, M, I, C, W, O>,
    cycles: u32,
    patience: u64,
) -> Finished<M, I, C, W, O>
where
    R: Threads + Wait + Sync,
    M: Media + Send,
    I: Source,
    C: Source + Send,
    W: Sink,
    O: Sink + Send,
    ghost on: { Asked M I C W O }
    requires may { MayRun M.outside on.opened }
    requires reads { on.opened.script ≡ None }
    requires some { 1 ≤ patience }
    requires asked { (patience ≡ on.patience) × (cycles ≡ on.opened.cycles) }
    requires begun { HaveAllBegun M.outside I.outside W.outside on.opened crew }
    ensures { IsLeft R M.outside I.outside C.outside W.outside O.outside on result }
{
    let Crew {
        leading,
        serving,
        playing,
        told,
        lists,
    } = crew;
    let bells = Bells::new();
    let joined = side_by_side(
        rt, &told, leading, serving, playing, cycles, patience, &bells,
    );
    finish(joined, lists)
}

// Begins, and plays.
fn run<R, M, I, C, W, O>(
    rt: &R,
    alloc: Global,
    o: Opened<M, I, C, W, O>,
    patience: u64,
) -> Result<Finished<M, I, C, W, O>, World<M, I, C, W, O>>
where
    R: Threads + Wait + Sync,
    M: Media + Send,
    I: Source,
    C: Source + Send,
    W: Sink,
    O: Sink + Send,
    ghost on: { Asked M I C W O }
    requires may { MayRun M.outside o }
    requires reads { o.script ≡ None }
    requires some { 1 ≤ patience }
    requires asked { on ≡ record { opened = o; patience = patience } }
    ensures left { IfOk result
        (IsLeft R M.outside I.outside C.outside W.outside O.outside on) }
    ensures back { IfErr result (λ w. w ≡ o.world) }
{
    let cycles = o.cycles;
    match begin(rt, alloc, o) {
        Ok(crew) => Ok(played(rt, crew, cycles, patience)),
        Err(world) => Err(world),
    }
}

/// Plays what was opened on three threads: control carries its lines out and allows cycles, the butler reads ahead and flushes takes, and
/// the process makes a cycle where one is allowed, and looks for a piece that isn't there up to `patience` times. All memory is taken
/// before the first thread starts, but for what `faults.memory` tells of; where that is set less is said of what is left. So often it tries for
/// an allowance too, and then waits for none any more. Err is want of memory before that, and gives the world back. It isn't promised to
/// return: threads wait for one another, and a source may never end.
pub fn play<R, M, I, C, W, O>(
    rt: &R,
    alloc: Global,
    o: Opened<M, I, C, W, O>,
    patience: u64,
) -> Result<Finished<M, I, C, W, O>, World<M, I, C, W, O>>
where
    R: Threads + Wait + Sync,
    M: Media + Send,
    I: Source,
    C: Source + Send,
    W: Sink,
    O: Sink + Send,
    requires may { MayRun M.outside o }
    requires reads { o.script ≡ None }
    requires some { 1 ≤ patience }
    ensures lines { IfOk result (PlaysItsLines patience C.outside O.outside o) }
    ensures rings { IfOk result (IfEnough (LeavesRings o)) }
    ensures genuine { M.outside.tells → IfOk result (IfEnough (SendsGenuine M.outside o)) }
    ensures master { M.outside.tells → W.outside.tells
        → IfOk result (IfEnough (WritesTheMaster M.outside W.outside o)) }
    ensures cycles { IfOk result (IfEnough (MakesItsCycles o)) }
    ensures input { IfOk result (InputGave I.outside o) }
    ensures takes { IfOk result (IfEnough (λ f. LeavesTakes M.outside I.outside
        (started_of M.outside I.outside W.outside o) (run_end_of f))) }
    ensures fronts { M.outside.tells → IfOk result (λ f. LeavesFronts M.outside I.outside
        (started_of M.outside I.outside W.outside o) (run_end_of f)) }
    ensures counts { IfOk result
        (FaultsAreCounted M.outside I.outside C.outside W.outside O.outside o) }
    ensures back { IfErr result (λ w. w ≡ o.world) }
{
    // header, blocks and end are the master's file
    the_master_is_its_blocks();
    // what control heard is true of all that was acknowledged
    heard_is_true();
    run(rt, alloc, o, patience)
}
