//! A process over real rings, with the edition that it is given.
ghost use Rattle.std.specs.Prelude.{◌≡◌, ◌≤◌};
ghost use Rattle.wav_codec.specs.Info.{IsFound};
ghost use Rattle.process_cycle.specs.ProcessState.{Playing};
ghost use Rattle.process_tests.specs.Bench.{IsGiven};

use crate::editing::carry_out;
use crate::opening::{Given, Opened};
use crate::other_ends::OtherEnds;
use cycle_journal::Entry;
use edition_log::Edition;
use process_cycle::{CycleFault, Look, Process};
use run_rings::new_run_ends;
use ses_io::{Sink, Source};
use session_model::Session;
use std::alloc::Global;
use std::marker::Model;
use wav_codec::WavInfo;

/// A process, with the newest edition. Contracts see what it plays. A call that isn't allowed where it stands does nothing.
#[derive(Drop)]
pub(crate) struct ProcessBench<I: Source, W: Sink> {
    process: Process<I, W>,
    // The session as it was opened.
    opened: Session,
    edition: Edition,
    // The bytes of the input before the first block.
    start: Vec<u8>,
    // How many edits the edition given last has.
    played: u32,
    // The header wasn't written yet.
    fresh: bool,
    // Each track was looked at since the last cycle.
    looked: bool,
    // Nothing may follow.
    stopped: bool,
}

impl<I: Source, W: Sink> Model for ProcessBench<I, W> {
    ghost use Rattle.process_cycle.specs.ProcessState.{Playing};
    ghost use Rattle.process_tests.specs.Bench.{IsOnBench, playing_by};

    ghost Value = { Playing };

    ghost view = { λ b. playing_by b.opened b.edition b.played b.start.items };

    ghost invariant = { λ b. IsOnBench I.outside W.outside b.opened b.edition b.played b.start.items
        (record { fresh = b.fresh; looked = b.looked; stopped = b.stopped }) b.process };
}

// The form of an input of so many frames.
fn form_of(frames: u16) -> WavInfo
    ensures { IsFound result }
{
    WavInfo {
        channels: 1,
        rate: 48_000,
        bits: 16,
        data_at: 44,
        frames: u64::from(frames),
    }
}

impl<I: Source, W: Sink> ProcessBench<I, W> {
    /// A new process, and the other ends of its rings.
    pub(crate) fn new(alloc: Global, given: Given<I, W>) -> Option<(ProcessBench<I, W>, OtherEnds)>
        requires { IsGiven I.outside W.outside given.opened.session given.opened.edition
            given.cycles given.start.items given.input given.master }
    {
        let Given {
            opened,
            cycles,
            start,
            input,
            frames,
            master,
        } = given;
        let Opened { session, edition } = opened;
        let ends = new_run_ends(alloc, &session).ok()?;
        let (ours, theirs) = OtherEnds::parted(&session, ends)?;
        let form = Some(form_of(frames));
        let Ok(process) = Process::new(alloc, &edition, cycles, input, form, master, ours) else {
            return None;
        };
        let bench = ProcessBench {
            process,
            opened: session,
            edition,
            start,
            played: 0,
            fresh: true,
            looked: false,
            stopped: false,
        };
        Some((bench, theirs))
    }

    /// Takes the edit of a control line in.
    pub(crate) fn edit(&mut self, line: &str) -> bool {
        matches!(carry_out(&mut self.edition, line.as_bytes()), Some(Ok(_)))
    }

    /// Writes the header, before anything else.
    pub(crate) fn begin(&mut self) -> Option<Result<(), CycleFault>>
        ghost at: { Playing }
        requires { self.old ≡ at }
    {
        if !self.fresh {
            return None;
        }
        let answer = self.process.begin();
        self.fresh = false;
        self.stopped = answer.is_err();
        Some(answer)
    }

    /// One look in the newest edition.
    pub(crate) fn look(&mut self) -> Option<Look>
        ghost at: { Playing }
        requires { self.old ≡ at }
    {
        if self.fresh || self.stopped {
            return None;
        }
        let look = self.process.gather(&self.edition);
        self.played = self.edition.number();
        self.looked = true;
        Some(look)
    }

    /// A cycle, where the last look was in the newest edition, no edit quit, and the journal has room.
    pub(crate) fn cycle(&mut self) -> Option<Result<(), CycleFault>>
        ghost at: { Playing }
        requires { self.old ≡ at }
    {
        let journal = self.process.journal();
        let room = journal.entries().len() < journal.room() as usize;
        let newest = self.played == self.edition.number() && !self.edition.transport().quit;
        if self.fresh || !self.looked || self.stopped || !room || !newest {
            return None;
        }
        let answer = self.process.cycle(&self.edition);
        self.looked = false;
        self.stopped = answer.is_err();
        Some(answer)
    }

    /// Writes silence for the cycles that weren't made, after which nothing follows.
    pub(crate) fn silence(&mut self) -> Option<Result<(), CycleFault>>
        ghost at: { Playing }
        requires { self.old ≡ at }
    {
        if self.fresh || self.stopped {
            return None;
        }
        let answer = self.process.silence();
        self.looked = false;
        self.stopped = true;
        Some(answer)
    }

    /// The entries made so far.
    pub(crate) fn entries(&self) -> &[Entry] {
        self.process.journal().entries()
    }

    /// The master, as the process leaves it.
    pub(crate) fn master(self) -> W {
        self.process.parts().master
    }
}
