//! One cycle: its looks, with patience, and what is played of what they found.
ghost use Rattle.std.specs.Prelude.{◌≡◌, ◌<◌, ◌≤◌, false, length, OnOk};
ghost use Rattle.process_cycle.specs.Looked.{MayLook};
ghost use Rattle.process_cycle.specs.Playing.{IsPlaying};
ghost use Rattle.process_cycle.specs.ProcessState.{Playing, entered};
ghost use Rattle.process_cycle.specs.Promised.{IsMastered};
ghost use Rattle.play_worker.specs.Patient.{IsPatient};
ghost use Rattle.play_worker.specs.Cycle.{PlaysCycle};

use crate::looks::look_up;
use edition_log::Edition;
use process_cycle::{CycleFault, Process};
use run_bells::Bells;
use ses_io::{Sink, Source};

/// The looks of a cycle in this edition, at most so many, and the cycle. After a fault no entry is made. It takes no memory, no
/// lock and no wait; its read of the input and its write of the master may take long.
pub fn play_cycle<I: Source, W: Sink>(
    process: &mut Process<I, W>,
    e: &Edition,
    patience: u64,
    bells: &Bells,
) -> Result<(), CycleFault>
    ghost at: { Playing }
    requires some { 1 ≤ patience }
    requires may { MayLook I.outside at process.old e.now }
    requires room { length process.old.journal.items < process.old.journal.room }
    requires unended { e.now.transport.quit ≡ false }
    requires mastered { IsMastered W.outside at process.old }
    requires patient { IsPatient patience at process.old }
    ensures cycle { PlaysCycle I.outside W.outside at patience e.now process.old result process.new }
    ensures playing { OnOk result (IsPlaying I.outside (entered e.now.edits at) process.new) }
    ensures mastered { OnOk result (IsMastered W.outside (entered e.now.edits at) process.new) }
    ensures patient { IsPatient patience (entered e.now.edits at) process.new }
{
    // by which the session is valid that the edition has
    let _session = e.session();
    look_up(process, e, patience, bells);
    process.cycle(e)
}
