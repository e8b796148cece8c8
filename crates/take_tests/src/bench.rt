//! Take files of a session over a media, to which tests pass blocks and a journal.
ghost use Rattle.std.specs.Prelude.{◌≡◌};
ghost use Rattle.session_model.specs.declared.session.Session.{Session as Opened};

use crate::counted::is_counted;
use arrayvec::ArrayVec;
use capture_flush::{TakeFiles, WriteFault};
use cycle_journal::{Entry, Journal, Note, Play, State, Take};
use piece_item::TakeBlock;
use ses_io::Media;
use session_model::{Samples, Session};
use session_toml::session_of;
use std::alloc::Global;
use std::marker::Model;
use std::process::Abort;

/// A block that is passed: its track from 0, its take from 1, its index from 0, and its samples at 24-bit scale.
#[derive(Clone, Copy)]
pub(crate) struct Passed {
    pub(crate) track: u32,
    pub(crate) take: u32,
    pub(crate) index: u32,
    pub(crate) samples: &'static [i32],
}

/// A run: its session, the blocks that are passed one after the other, and what each entry of the journal took of each track.
#[derive(Clone, Copy)]
pub(crate) struct Run {
    pub(crate) session: &'static str,
    pub(crate) blocks: &'static [Passed],
    pub(crate) entries: &'static [&'static [Take]],
}

/// How a run ended.
#[derive(Clone, Copy, Debug, PartialEq, Eq)]
pub(crate) enum Ended {
    Whole,
    /// This block, by its place among those passed from 0, met a fault.
    AtBlock(usize),
    AtFinish,
}

/// Take files with their session and their media. Contracts see the session.
#[derive(Drop)]
pub(crate) struct TakeBench<M> {
    session: Session,
    files: TakeFiles,
    media: M,
}

impl<M> Model for TakeBench<M> {
    ghost use Rattle.session_model.specs.declared.session.Session.{Session};
    ghost use Rattle.capture_flush.specs.Taking.{IsTakingOf};

    ghost Value = { Session };

    ghost view = { λ b. b.session };

    ghost invariant = { λ b. IsTakingOf b.session b.files };
}

fn block_of(alloc: Global, passed: &Passed) -> Option<TakeBlock> {
    let count = u32::try_from(passed.samples.len()).ok()?;
    let mut samples = Samples::new(alloc, count).ok()?;
    for sample in passed.samples {
        if samples.is_full() {
            return None;
        }
        samples.push(*sample);
    }
    Some(TakeBlock {
        take: passed.take,
        index: passed.index,
        samples,
    })
}

fn entry_of(at: usize, takes: &[Take]) -> Option<Entry> {
    let mut notes = ArrayVec::new();
    for take in takes {
        let note = Note {
            play: Play::Heard(0),
            take: *take,
        };
        notes.try_push(note).ok()?;
    }
    let state = State::Rolling {
        generation: 0,
        seq: u32::try_from(at).ok()?,
    };
    Some(Entry {
        edition: 1,
        settled: 0,
        state,
        notes,
    })
}

fn journal_of(alloc: Global, entries: &[&[Take]]) -> Option<Journal> {
    let mut journal = Journal::new(alloc, 8).ok()?;
    for (at, takes) in entries.iter().enumerate() {
        if journal.entries().len() >= journal.room() as usize {
            return None;
        }
        journal.note(entry_of(at, takes)?);
    }
    Some(journal)
}

impl<M: Media> TakeBench<M> {
    /// New take files of the session of a text.
    pub(crate) fn new(alloc: Global, session: &str, media: M) -> Option<TakeBench<M>> {
        let session = session_of(alloc, session.as_bytes()).ok()?;
        Some(TakeBench {
            files: TakeFiles::new(alloc, &session).ok()?,
            session,
            media,
        })
    }

    /// What the files are written to.
    pub(crate) fn media(&self) -> &M {
        &self.media
    }

    fn block(&mut self, track: u32, b: &TakeBlock) -> Option<Result<(), WriteFault>>
        ghost at: { Opened }
        requires { self.old ≡ at }
    {
        if track as usize >= self.session.tracks.len() {
            return None;
        }
        Some(self.files.block(&mut self.media, track, b))
    }

    fn close(&mut self, journal: &Journal) -> Option<Result<(), WriteFault>>
        ghost at: { Opened }
        requires at { self.old ≡ at }
        requires untold { ¬ M.outside.tells }
    {
        let tracks = self.session.tracks.len();
        if journal.entries().len() > 100_000 || !is_counted(journal, tracks) {
            return None;
        }
        Some(self.files.finish(&mut self.media, journal))
    }

    /// Passes a block; None where there is no such track.
    pub(crate) fn pass(
        &mut self,
        alloc: Global,
        passed: &Passed,
    ) -> Option<Result<(), WriteFault>> {
        self.block(passed.track, &block_of(alloc, passed)?)
    }

    /// Finishes the takes of a journal; None where they aren't counted.
    pub(crate) fn finish(
        &mut self,
        alloc: Global,
        entries: &[&[Take]],
    ) -> Option<Result<(), WriteFault>>
        requires { ¬ M.outside.tells }
    {
        self.close(&journal_of(alloc, entries)?)
    }

    /// Passes all blocks, also those behind one that meets a fault, and finishes the takes. Answers how many met one.
    pub(crate) fn go_through(&mut self, alloc: Global, run: &Run) -> Option<(usize, Ended)>
        requires { ¬ M.outside.tells }
    {
        let mut met = 0usize;
        for passed in run.blocks {
            if self.pass(alloc, passed)?.is_err() {
                met = met.saturating_add(1);
            }
        }
        match self.finish(alloc, run.entries)? {
            Ok(()) => Some((met, Ended::Whole)),
            Err(WriteFault) => Some((met, Ended::AtFinish)),
        }
    }

    /// Passes all blocks, and finishes the takes.
    pub(crate) fn carry_out(&mut self, alloc: Global, run: &Run) -> Option<Ended>
        requires { ¬ M.outside.tells }
    {
        for (at, passed) in run.blocks.iter().enumerate() {
            if self.pass(alloc, passed)?.is_err() {
                return Some(Ended::AtBlock(at));
            }
        }
        match self.finish(alloc, run.entries)? {
            Ok(()) => Some(Ended::Whole),
            Err(WriteFault) => Some(Ended::AtFinish),
        }
    }
}

/// A row of a table holds.
pub(crate) fn row_holds<R: Abort>(rt: &R, at: usize, right: bool) {
    assert!(rt; right, "row {at}");
}
