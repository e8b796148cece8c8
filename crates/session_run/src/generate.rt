//! `gen`: a large session is made from a number and exported in memory, and out gets its line.
ghost use Rattle.std.specs.Prelude.{◌≡◌, ◌≤◌, Some};
ghost use Rattle.session_gen.specs.Gen.{gen_text};
ghost use Rattle.session_run.specs.Tasks.{Gens};
ghost use Rattle.session_run.specs.Status.{IsOfGen, WritesFailed};
ghost use Rattle.session_run.specs.Replied.{WritesItsOwn};
ghost use Rattle.session_run.specs.Carried.{CarriesOut};

use crate::writing::write_text;
use cycle_journal::Status;
use ses_io::{Media, Sink, Source, World};
use session_gen::gen_line;
use session_play::{Outcome, unplayed};
use std::alloc::Global;

// Makes and exports the session of the number, and writes its line to out; the status says what came of it.
fn make<O: Sink>(alloc: Global, number: u32, out: &mut O) -> Status
    requires { number ≤ 8191 }
    ensures status { IsOfGen result }
    ensures written { WritesItsOwn O.outside (λ text. text ≡ gen_text number)
        out.old out.new result }
    ensures writes { WritesFailed Status.OutFault (O.outside.faults out.old)
        (O.outside.faults out.new) result }
{
    let Ok(text) = gen_line(alloc, number) else {
        return Status::NoMemory;
    };
    write_text(out, text.as_bytes())
}

/// Makes the session of a number and exports it in memory.
pub(crate) fn generate<M: Media, I: Source, C: Source, W: Sink, O: Sink>(
    alloc: Global,
    number: u32,
    world: World<M, I, C, W, O>,
) -> Outcome<M, I, C, W, O>
    requires { number ≤ 8191 }
    ensures { CarriesOut M.outside I.outside C.outside W.outside O.outside world
        (Some (Gens number)) result }
{
    let mut world = world;
    let status = make(alloc, number, &mut world.out);
    unplayed(alloc, status, world)
}
