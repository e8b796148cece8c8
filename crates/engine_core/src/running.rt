//! A run from its first event to its end.
ghost use Rattle.std.specs.Prelude.{◌≡◌, map, IfOk, IfErr};
ghost use Rattle.run_end.specs.Beginning.{MayRun, started_of};
ghost use Rattle.run_end.specs.Finished.{FaultsAreCounted, LeavesRings, SendsGenuine, run_end_of};
ghost use Rattle.run_end.specs.Mastered.{InputGave, MakesItsCycles, WritesTheMaster};
ghost use Rattle.run_end.specs.Takes.{LeavesTakes};
ghost use Rattle.run_letters.specs.Events.{letter_of};
ghost use Rattle.engine_core.specs.Beginning.{HasBegun, course_of};
ghost use Rattle.engine_core.specs.Events.{Course};
ghost use Rattle.engine_core.specs.Lines.{GoesByItsLines};
ghost use Rattle.engine_core.specs.Played.{IsPlayed, finished_of};

use crate::beginning::begin;
use crate::engine::Engine;
use crate::finishing::finish;
use crate::rest::play_on;
use control_desk::ControlParts;
use master_blocks::the_master_is_its_blocks;
use run_end::{RunEnd, RunLists};
use run_letters::Event;
use run_world::{Faults, Finished, Opened};
use ses_io::{Media, Sink, Source, World};
use std::alloc::Global;

// What a run leaves, with what control leaves.
fn finished<M, I, C, W, O>(
    ended: RunEnd<M, I, W>,
    control: ControlParts<C, O>,
) -> Finished<M, I, C, W, O>
    ensures { result ≡ finished_of ended control }
{
    let RunEnd {
        media,
        input,
        master,
        journal,
        edits,
        rings,
        acks,
        failed,
    } = ended;
    Finished {
        world: World {
            media,
            input,
            control: control.source,
            master,
            out: control.out,
        },
        journal,
        edits,
        rings,
        acks,
        grants: None,
        faults: Faults {
            input: failed.input,
            master: failed.master,
            read: failed.read,
            write: failed.write,
            control: control.read_failed,
            long: control.long,
            out: control.write_failed,
            memory: false,
        },
    }
}

// Plays a run that has begun to its end.
fn played<M: Media, I: Source, C: Source, W: Sink, O: Sink>(
    engine: Engine<M, I, C, W, O>,
    lists: RunLists,
    events: &[Event],
    records: bool,
) -> Finished<M, I, C, W, O>
    ghost on: { Course M I C W O }
    requires begun { HasBegun M.outside I.outside C.outside W.outside O.outside on.opening engine
        lists }
    requires letters { on.letters ≡ map letter_of events.now }
    requires records { records ≡ on.opening.started.begun.records }
    ensures { IsPlayed M.outside I.outside C.outside W.outside O.outside on result }
{
    let mut engine = engine;
    engine.events(events);
    play_on(&mut engine);
    let Engine { run, control } = engine;
    let ended = finish(run, lists, records);
    // it has no more entries than it has room for
    let _made = ended.journal.entries();
    finished(ended, control.parts())
}

// Begins a run, and plays it to its end.
fn play<M: Media, I: Source, C: Source, W: Sink, O: Sink>(
    alloc: Global,
    o: Opened<M, I, C, W, O>,
    events: &[Event],
) -> Result<Finished<M, I, C, W, O>, World<M, I, C, W, O>>
    ghost on: { Course M I C W O }
    requires may { MayRun M.outside o }
    requires told { on ≡ course_of M.outside I.outside W.outside o events.now }
    ensures played { IfOk result (IsPlayed M.outside I.outside C.outside W.outside O.outside on) }
    ensures back { IfErr result (λ w. w ≡ o.world) }
{
    let records = o.script.is_none();
    match begin(alloc, o) {
        Ok((engine, lists)) => Ok(played(engine, lists, events, records)),
        Err(world) => Err(world),
    }
}

/// Runs the events on one thread, and then the serial rest: what control awaits, its lines in order,
/// and for each cycle turns of the butler and looks of the process until a turn is idle. Then the
/// rings are closed, the butler makes turns until one is idle, and the takes are made whole. It takes
/// no memory once the run has begun. Err is want of memory before that, and gives the world back.
pub fn run_events<M: Media, I: Source, C: Source, W: Sink, O: Sink>(
    alloc: Global,
    o: Opened<M, I, C, W, O>,
    events: &[Event],
) -> Result<Finished<M, I, C, W, O>, World<M, I, C, W, O>>
    requires { MayRun M.outside o }
    ensures lines { IfOk result (GoesByItsLines C.outside O.outside o events.now) }
    ensures rings { IfOk result (LeavesRings o) }
    ensures genuine { M.outside.tells → IfOk result (SendsGenuine M.outside o) }
    ensures master { M.outside.tells → W.outside.tells
        → IfOk result (WritesTheMaster M.outside W.outside o) }
    ensures cycles { IfOk result (MakesItsCycles o) }
    ensures input { IfOk result (InputGave I.outside o) }
    ensures takes { IfOk result (λ f. LeavesTakes M.outside I.outside
        (started_of M.outside I.outside W.outside o) (run_end_of f)) }
    ensures counts { IfOk result
        (FaultsAreCounted M.outside I.outside C.outside W.outside O.outside o) }
    ensures back { IfErr result (λ w. w ≡ o.world) }
{
    // header, blocks and end are the master's file
    the_master_is_its_blocks();
    play(alloc, o, events)
}
