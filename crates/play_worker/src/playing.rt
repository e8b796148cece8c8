//! The process's whole thread.
ghost use Rattle.std.specs.Prelude.{◌≡◌, ◌≤◌};
ghost use mathlib.Core.List.{IsPrefix};
ghost use Rattle.ses_io.specs.Faults.{HasCause};
ghost use Rattle.disk_ring.specs.Receiver.{GoesOnOut};
ghost use Rattle.master_blocks.specs.State.{IsMasterOf};
ghost use Rattle.process_cycle.specs.ProcessState.{Playing};
ghost use Rattle.play_worker.specs.Kept.{KeepsRun};
ghost use Rattle.play_worker.specs.Leaves.{EndsMaster, GivesBack, IsReady, MasterStands, first_at, PlayLeaves, PlaysNoMore, is_cut, master_answered};
ghost use Rattle.play_worker.specs.Plays.{at_now};

use crate::told::Told;
use crate::worker::{Ended, PlayWorker, cycles};
use cycle_grants::AllowanceParts;
use process_cycle::{CycleFault, ProcessParts};
use route_lists::ListReader;
use run_bells::Bells;
use ses_io::{Sink, Source};

/// What the process's thread gives back.
#[derive(Drop)]
pub struct Played<I: Source, W: Sink> {
    pub reader: ListReader,
    pub grants: AllowanceParts,
    /// Its rings are closed.
    pub process: ProcessParts<I, W>,
    pub told: Told<I, W>,
    /// Why no further cycle was made.
    pub ended: Ended,
    /// Whether a write of the master failed: of its header, of a block, or of its end.
    pub cut_off: bool,
}

/// The process's thread: the header of the master, cycles as `PlayWorker` makes them, and the end of the master, unless a
/// write of it has failed. Then its rings are closed, and all is given back. It takes no memory, no lock and no wait, and
/// returns.
pub fn play<I: Source, W: Sink>(w: PlayWorker<I, W>, patience: u64, bells: &Bells) -> Played<I, W>
    requires some { 1 ≤ patience }
    requires ready { IsReady I.outside W.outside w }
    ensures leaves { PlayLeaves patience I.outside W.outside w result }
    ensures told { result.told ≡ w.told }
    ensures grows { IsPrefix w.reader.edition.edits result.reader.edition.edits }
    ensures grants { GoesOnOut w.grants.from result.grants.from }
{
    let (w, ended) = made(w, patience, bells);
    let (w, cut_off) = finished(w, ended);
    let entries = w.process.journal().entries().len() as u32;
    let played = given_back(w, ended, cut_off);
    bells.ended(entries);
    played
}

// The header and all cycles.
fn made<I: Source, W: Sink>(
    w: PlayWorker<I, W>,
    patience: u64,
    bells: &Bells,
) -> (PlayWorker<I, W>, Ended)
    ghost at: { Playing }
    requires some { 1 ≤ patience }
    requires first { at ≡ first_at I.outside W.outside w }
    requires ready { IsReady I.outside W.outside w }
    ensures stopped { PlaysNoMore patience I.outside W.outside
        (at_now I.outside W.outside result.0) result.1 result.0 }
    ensures told { result.0.told ≡ w.told }
    ensures grows { IsPrefix w.reader.edition.edits result.0.reader.edition.edits }
    ensures keeps { KeepsRun w.process result.0.process }
    ensures grants { GoesOnOut w.grants.from result.0.grants.from }
{
    let mut w = w;
    match w.process.begin() {
        Ok(()) => cycles(w, patience, bells),
        Err(fault) => (w, Ended::Stopped(fault)),
    }
}

// Whether a write of the master failed before its end.
fn is_cut(ended: Ended) -> bool
    ensures { result ≡ is_cut ended }
{
    match ended {
        Ended::Stopped(CycleFault::MasterFault) => true,
        Ended::All | Ended::Quit | Ended::Refused | Ended::Stopped(CycleFault::InputFault) => false,
    }
}

// The end of the master, unless a write of it has failed. Whether one has.
fn finished<I: Source, W: Sink>(w: PlayWorker<I, W>, ended: Ended) -> (PlayWorker<I, W>, bool)
    ghost at: { Playing }
    requires of { IsMasterOf at.session w.process.master }
    requires few { w.process.journal.room ≤ 100000 }
    requires stands { MasterStands I.outside W.outside at (is_cut ended) w.process }
    requires faults { HasCause (W.outside.faults w.told.sink.value)
        (W.outside.faults w.process.master.sink) (master_answered (is_cut ended)) }
    ensures ends { EndsMaster I.outside W.outside at ended w result.1 result.0 }
{
    if is_cut(ended) {
        return (w, true);
    }
    let mut w = w;
    let cut_off = w.process.silence().is_err();
    (w, cut_off)
}

// All is given back, with the rings closed.
fn given_back<I: Source, W: Sink>(w: PlayWorker<I, W>, ended: Ended, cut_off: bool) -> Played<I, W>
    ensures gives { GivesBack w result }
    ensures ended { result.ended ≡ ended }
    ensures cut_off { result.cut_off ≡ cut_off }
{
    let PlayWorker {
        reader,
        process,
        grants,
        told,
    } = w;
    Played {
        reader,
        grants: grants.parts(),
        process: process.parts(),
        told,
        ended,
        cut_off,
    }
}
