//! A made session is exported in memory, and the samples of its master are added up.
ghost use Rattle.std.specs.Prelude.{◌≡◌, ◌≤◌, [], IfOk};
ghost use Rattle.ses_io.specs.Stored.{files_in};
ghost use Rattle.cycle_journal.specs.declared.status.Status.TheVariants.{Done};
ghost use Rattle.session_gen.specs.Files.{HasMade};
ghost use Rattle.session_gen.specs.Gen.{master, master_sum};

use crate::files::{SESSION, files_of};
use crate::sums::sum_of_file;
use cycle_journal::Status;
use run_world::Script;
use ses_io::{MemMedia, MemSink, MemSource, NoMemory, World};
use session_play::{Letters, Outcome, Request, play};
use std::alloc::Global;

type Memory = World<MemMedia, MemSource, MemSource, MemSink, MemSink>;

type Played = Outcome<MemMedia, MemSource, MemSource, MemSink, MemSink>;

// The world of the session of the number n: its files, and nothing else.
fn world_of(alloc: Global, n: u32) -> Result<Memory, NoMemory>
    requires { n ≤ 8191 }
    ensures files { IfOk result (λ world. HasMade n (files_in world.media.files)) }
    ensures master { IfOk result (λ world. world.master.held ≡ []) }
{
    Ok(World {
        media: files_of(alloc, n)?,
        input: MemSource::new(Vec::new(alloc), Vec::new(alloc)),
        control: MemSource::new(Vec::new(alloc), Vec::new(alloc)),
        master: MemSink::new(alloc, Vec::new(alloc)),
        out: MemSink::new(alloc, Vec::new(alloc)),
    })
}

// What an export of that session leaves.
fn exported(alloc: Global, n: u32) -> Result<Played, NoMemory>
    requires { n ≤ 8191 }
    ensures { IfOk result (λ o. o.status ≡ Done → o.world.master.held ≡ master n) }
{
    let world = world_of(alloc, n)?;
    let asked = Request {
        session: SESSION,
        cycles: 256,
        script: Some(Script { from: 0 }),
        letters: Letters::Absent,
    };
    Ok(play(alloc, &asked, world))
}

/// The file samples of the master of that session's export, added up. A run in memory fails only for want of it.
pub(crate) fn sum_of_export(alloc: Global, n: u32) -> Result<i128, NoMemory>
    requires { n ≤ 8191 }
    ensures { IfOk result (λ sum. sum ≡ master_sum n) }
{
    let outcome = exported(alloc, n)?;
    match outcome.status {
        Status::Done => Ok(sum_of_file(outcome.world.master.bytes())),
        _ => Err(NoMemory),
    }
}
