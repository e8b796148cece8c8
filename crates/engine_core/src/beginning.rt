//! A run begins: its workers with all their memory, its control, and the lists that it will leave.
ghost use Rattle.std.specs.Prelude.{◌≡◌, IfOk, IfErr};
ghost use Rattle.run_end.specs.Beginning.{MayRun};
ghost use Rattle.engine_core.specs.Opening.{Opening};
ghost use Rattle.engine_core.specs.Beginning.{HasBegun, control_spoken, opening_of, spoken_of, start_of, world_of};

use crate::engine::Engine;
use crate::run::Run;
use control_desk::Control;
use run_end::RunLists;
use run_world::{Opened, Script};
use ses_io::{Media, Sink, Source, World};
use std::alloc::Global;
use worker_pair::{Pair, Start};

/// What control is given of a run: where its lines come from, where its replies go, and its script, where it says one.
pub(crate) struct Spoken<C, O> {
    pub(crate) lines: C,
    pub(crate) out: O,
    pub(crate) script: Option<Script>,
}

// Control that says a script, or that reads its lines.
fn control<C: Source, O: Sink>(spoken: Spoken<C, O>) -> Control<C, O>
    ensures { result ≡ control_spoken spoken }
{
    let Spoken { lines, out, script } = spoken;
    match script {
        Some(script) => Control::scripted(lines, out, script.from),
        None => Control::reading(lines, out),
    }
}

// What was opened, apart: what the workers begin with, and what control is given.
fn apart<M, I, C, W, O>(o: Opened<M, I, C, W, O>) -> (Start<M, I, W>, Spoken<C, O>)
    ensures start { result.0 ≡ start_of o }
    ensures spoken { result.1 ≡ spoken_of o }
{
    let World {
        media,
        input,
        control: lines,
        master,
        out,
    } = o.world;
    let start = Start {
        edition: o.edition,
        sources: o.sources,
        cycles: o.cycles,
        form: o.form,
        media,
        input,
        master,
    };
    let spoken = Spoken {
        lines,
        out,
        script: o.script,
    };
    (start, spoken)
}

// The world again.
fn together<M, I, C, W, O>(given: (M, I, W), spoken: Spoken<C, O>) -> World<M, I, C, W, O>
    ensures { result ≡ world_of given spoken }
{
    let (media, input, master) = given;
    let Spoken {
        lines,
        out,
        script: _,
    } = spoken;
    World {
        media,
        input,
        control: lines,
        master,
        out,
    }
}

/// A run that has begun, with the lists that it will leave: the header of its master was written. Err is want of memory, and gives
/// the world back as it was.
pub(crate) fn begin<M: Media, I: Source, C: Source, W: Sink, O: Sink>(
    alloc: Global,
    o: Opened<M, I, C, W, O>,
) -> Result<(Engine<M, I, C, W, O>, RunLists), World<M, I, C, W, O>>
    ghost on: { Opening M I C W O }
    requires may { MayRun M.outside o }
    requires told { on ≡ opening_of M.outside I.outside W.outside o }
    ensures begun { IfOk result (λ b. HasBegun M.outside I.outside C.outside W.outside O.outside
        on b.0 b.1) }
    ensures back { IfErr result (λ w. w ≡ o.world) }
{
    let tracks = o.edition.session().tracks.len() as u32;
    let (start, spoken) = apart(o);
    let Ok(lists) = RunLists::new(alloc, tracks) else {
        return Err(together(start.give_back(), spoken));
    };
    match Pair::new(alloc, start) {
        Ok(pair) => {
            let engine = Engine {
                run: Run::begin(pair),
                control: control(spoken),
            };
            Ok((engine, lists))
        }
        Err(given) => Err(together(given, spoken)),
    }
}
