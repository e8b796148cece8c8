//! What the process's thread owns, and one cycle of it.
ghost use Rattle.std.specs.Prelude.{◌≡◌, ◌+◌, ◌≤◌, length, MatchResult, None, Some};
ghost use mathlib.Core.List.{IsPrefix};
ghost use Rattle.session_model.specs.declared.session.Session.{Session as Opening};
ghost use Rattle.route_lists.specs.Lists.{IsReaderOf};
ghost use Rattle.process_cycle.specs.ProcessState.{Playing, entered};
ghost use Rattle.cycle_grants.specs.Grants.{grants_in, newest};
ghost use Rattle.cycle_grants.specs.Allowed.{MayMake};
ghost use Rattle.disk_ring.specs.Receiver.{GoesOnOut};
ghost use Rattle.play_worker.specs.Kept.{KeepsRun};
ghost use Rattle.play_worker.specs.Plays.{MayCycle, Plays, PlaysAt, StepLeaves, at_now, given_last, made_by};

use crate::cycle::play_cycle;
use crate::told::Told;
use cycle_grants::Allowance;
use process_cycle::{CycleFault, Process};
use route_lists::ListReader;
use run_bells::Bells;
use ses_io::{Sink, Source};

/// The process with its reader and its end of the grants.
#[derive(Drop)]
pub struct PlayWorker<I: Source, W: Sink> {
    pub reader: ListReader,
    pub process: Process<I, W>,
    pub grants: Allowance,
    pub told: Told<I, W>,
}

/// Why no further cycle is made.
#[derive(Clone, Copy, Debug, PartialEq, Eq)]
pub enum Ended {
    /// All cycles were made.
    All,
    /// The edition that was entered has quit.
    Quit,
    /// The reader was refused, or showed an edition older than a grant's.
    Refused,
    /// The input or the master failed.
    Stopped(CycleFault),
}

// An allowance for one more cycle is waited for.
fn awaited<I: Source, W: Sink>(w: PlayWorker<I, W>, patience: u64) -> PlayWorker<I, W>
    ghost at: { Playing }
    requires { PlaysAt patience I.outside W.outside at w }
    ensures plays { PlaysAt patience I.outside W.outside at result }
    ensures may { MayMake (made_by w) result.grants }
    ensures same { result ≡ record w { grants = result.grants } }
    ensures ring { GoesOnOut w.grants.from result.grants.from }
{
    let mut w = w;
    let made = w.process.journal().entries().len() as u32;
    w.grants.await_cycle(made, patience);
    w
}

// The newest edition is entered. Err is a reader that was refused, or that shows less than a grant told of.
fn newest<I: Source, W: Sink>(w: PlayWorker<I, W>) -> Result<PlayWorker<I, W>, PlayWorker<I, W>>
    ensures reader { (s : Opening) → IsReaderOf s w.reader
        → MatchResult result (λ r. IsReaderOf s r.reader) (λ r. IsReaderOf s r.reader) }
    ensures new { MatchResult result (λ r. newest (grants_in w.grants.from)
        ≤ length r.reader.edition.edits) (λ r. r.grants ≡ w.grants) }
    ensures same { MatchResult result (λ r. r ≡ record w { reader = r.reader })
        (λ r. r ≡ record w { reader = r.reader }) }
    ensures grows { MatchResult result
        (λ r. IsPrefix w.reader.edition.edits r.reader.edition.edits)
        (λ r. IsPrefix w.reader.edition.edits r.reader.edition.edits) }
{
    let PlayWorker {
        reader,
        process,
        grants,
        told,
    } = w;
    match reader.enter() {
        Ok(reader) => {
            let behind = reader.edition().number() < grants.floor();
            let w = PlayWorker {
                reader,
                process,
                grants,
                told,
            };
            if behind { Err(w) } else { Ok(w) }
        }
        Err(reader) => Err(PlayWorker {
            reader,
            process,
            grants,
            told,
        }),
    }
}

// A cycle in the edition that is seen, unless it has quit.
fn in_edition<I: Source, W: Sink>(
    w: PlayWorker<I, W>,
    patience: u64,
    bells: &Bells,
) -> (PlayWorker<I, W>, Option<Ended>)
    ghost at: { Playing }
    requires some { 1 ≤ patience }
    requires plays { PlaysAt patience I.outside W.outside at w }
    requires may { MayCycle w }
    ensures leaves { StepLeaves patience I.outside W.outside
        (entered (given_last result.0) at) result.1 result.0 }
    ensures same { result.0 ≡ record w { process = result.0.process } }
    ensures made { result.1 ≡ None → made_by result.0 ≡ made_by w + 1 }
    ensures keeps { KeepsRun w.process result.0.process }
{
    let PlayWorker {
        reader,
        mut process,
        grants,
        told,
    } = w;
    if reader.edition().transport().quit {
        let w = PlayWorker {
            reader,
            process,
            grants,
            told,
        };
        return (w, Some(Ended::Quit));
    }
    let answer = play_cycle(&mut process, reader.edition(), patience, bells);
    let w = PlayWorker {
        reader,
        process,
        grants,
        told,
    };
    match answer {
        Ok(()) => (w, None),
        Err(fault) => (w, Some(Ended::Stopped(fault))),
    }
}

// One cycle in the newest edition, once it is allowed.
fn one<I: Source, W: Sink>(
    w: PlayWorker<I, W>,
    patience: u64,
    bells: &Bells,
) -> (PlayWorker<I, W>, Option<Ended>)
    ghost at: { Playing }
    requires some { 1 ≤ patience }
    requires plays { PlaysAt patience I.outside W.outside at w }
    ensures leaves { StepLeaves patience I.outside W.outside
        (entered (given_last result.0) at) result.1 result.0 }
    ensures made { result.1 ≡ None → made_by result.0 ≡ made_by w + 1 }
    ensures told { result.0.told ≡ w.told }
    ensures grows { IsPrefix w.reader.edition.edits result.0.reader.edition.edits }
    ensures keeps { KeepsRun w.process result.0.process }
    ensures grants { GoesOnOut w.grants.from result.0.grants.from }
{
    if w.process.journal().entries().len() >= w.process.journal().room() as usize {
        return (w, Some(Ended::All));
    }
    match newest(awaited(w, patience)) {
        Ok(w) => in_edition(w, patience, bells),
        Err(w) => (w, Some(Ended::Refused)),
    }
}

/// Cycles, each once it is allowed, in the newest edition, with looks at most so many; until all are made, the edition that is
/// entered has quit, the reader is refused, or the input or the master fails. It takes no memory, no lock and no wait, and
/// returns.
pub(crate) fn cycles<I: Source, W: Sink>(
    w: PlayWorker<I, W>,
    patience: u64,
    bells: &Bells,
) -> (PlayWorker<I, W>, Ended)
    requires some { 1 ≤ patience }
    requires plays { Plays patience I.outside W.outside w }
    ensures leaves { StepLeaves patience I.outside W.outside
        (at_now I.outside W.outside result.0) (Some result.1) result.0 }
    ensures told { result.0.told ≡ w.told }
    ensures grows { IsPrefix w.reader.edition.edits result.0.reader.edition.edits }
    ensures keeps { KeepsRun w.process result.0.process }
    ensures grants { GoesOnOut w.grants.from result.0.grants.from }
{
    let mut w = w;
    loop {
        let (next, step) = one(w, patience, bells);
        w = next;
        if let Some(end) = step {
            return (w, end);
        }
        bells.entered(w.process.journal().entries().len() as u32);
    }
}
