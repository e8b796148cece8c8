//! What is kept along the entries of a report: the judge of the journal, and the blocks as they were heard.
ghost use Rattle.std.specs.Prelude.{◌≡◌, ◌<◌, ◌≤◌, List, [], ◌∷◌, length, true, Ok, IfOk, IfSome};
ghost use Rattle.std.specs.Option.{option_map};
ghost use Rattle.ses_io.specs.Files.{content};
ghost use Rattle.session_model.specs.declared.edit.Edit.{Edit};
ghost use Rattle.session_model.specs.Valid.{IsValid};
ghost use Rattle.audio_source.specs.Opened.{IsListed};
ghost use Rattle.track_render.specs.Reading.{IsReadOn};
ghost use Rattle.cycle_journal.specs.JournalView.{seen_entry};
ghost use Rattle.edit_history.specs.History.{IsHistoryOf};
ghost use Rattle.heard_blocks.specs.Reading.{IsTold, reading};
ghost use Rattle.edit_history.specs.Judged.{Judged};
ghost use Rattle.report_verdict.specs.Lines.{entry_stands};
ghost use Rattle.report_verdict.specs.Master.{block_place};
ghost use Rattle.report_check.specs.Checking.{HasChecked, MayHaveBlock, before, samples_read};

use crate::reading::stands;
use audio_source::Sources;
use cycle_journal::Entry;
use edit_history::EditHistory;
use heard_blocks::{HeardBlocks, HeardFault};
use journal_judge::Judge;
use master_file::data_long;
use ses_io::{Media, NoMemory};
use session_model::Session;
use std::alloc::Global;
use std::marker::Model;

// A piece of the master.
#[derive(Drop)]
struct Piece {
    /// The place of its first byte in the file.
    place: u64,
    bytes: Vec<u8>,
}

/// The judge of a journal, and what was heard along it.
#[derive(Drop)]
pub(crate) struct Checker {
    judge: Judge,
    heard: HeardBlocks,
}

impl Model for Checker {
    ghost use Rattle.report_check.specs.Checking.{CheckerState};

    ghost Value = { CheckerState };

    ghost view = { λ c. record {
      judge = c.judge;
      heard = c.heard;
    } };
}

impl Checker {
    /// That of a session as it was opened, behind no entry.
    pub(crate) fn new(alloc: Global, s: &Session) -> Result<Checker, NoMemory>
        requires { IsValid s.now }
        ensures { IfOk result (λ c. (edits : List Edit) → HasChecked s.now edits [] c) }
    {
        Ok(Checker {
            judge: Judge::new(alloc, s)?,
            heard: HeardBlocks::new(alloc, s)?,
        })
    }

    // The piece of an entry that is lawful behind those before it, which are done; None where it isn't lawful, and then
    // nothing is said of the checker from then on.
    fn piece<M: Media>(
        &mut self,
        alloc: Global,
        sources: &mut Sources,
        media: &mut M,
        s: &Session,
        history: &EditHistory,
        done: &[Entry],
        entry: &Entry,
    ) -> Result<Option<Piece>, HeardFault>
        ghost at: { Judged }
        requires valid { IsValid s.now }
        requires history { IsHistoryOf at.session history.now }
        requires checked { HasChecked at.session history.now.edits at.entries self.old }
        requires few { length at.entries < 100000 }
        requires few_done { length done.now ≤ 100000 }
        requires sources { IsListed at.session.rate at.session.sources.items sources.old.opened }
        ensures block { IfOk result (λ piece. MayHaveBlock (IsTold M.outside media.old sources.old)
            at.session history.now.edits (samples_read (M.outside.files media.old)
            sources.old at.session history.now.edits) at.entries (seen_entry entry.now) self.new
            (option_map (λ p. p.bytes.items) piece)) }
        ensures place { IfOk result (λ piece. IfSome piece
            (λ p. p.place ≡ block_place s.now (length done.now))) }
        ensures near { IfOk result (λ piece. IfSome piece (λ p. p.place ≤ 2457600044)) }
        ensures read { IsReadOn M.outside media.old media.new sources.old sources.new
            (reading result) }
    {
        if !self.judge.judge(history, entry) {
            return Ok(None);
        }
        let now = self.judge.now();
        let bytes = self
            .heard
            .block(alloc, sources, media, history, now, entry)?;
        let place = 44 + data_long(s, done.len() as u32);
        Ok(Some(Piece { place, bytes }))
    }

    /// Whether the line of an entry stands behind those before it, which are done: it is lawful, and its block stands in
    /// the master. Where it doesn't, nothing is said of the checker from then on.
    pub(crate) fn entry_stands<M: Media>(
        &mut self,
        alloc: Global,
        sources: &mut Sources,
        media: &mut M,
        s: &Session,
        history: &EditHistory,
        done: &[Entry],
        entry: &Entry,
        master: &str,
    ) -> Result<bool, HeardFault>
        requires valid { IsValid s.now }
        requires history { IsHistoryOf s.now history.now }
        requires checked { HasChecked s.now history.now.edits (before done.now) self.old }
        requires few { length done.now < 100000 }
        requires sources { IsListed s.now.rate s.now.sources.items sources.old.opened }
        ensures told { IsTold M.outside media.old sources.old → IfOk result (λ stands. stands
            ≡ entry_stands s.now history.now.edits (samples_read (M.outside.files media.old)
            sources.old s.now history.now.edits) (content (M.outside.files media.old)
            master.now) (before done.now) (seen_entry entry.now)) }
        ensures checked { result ≡ Ok true → HasChecked s.now history.now.edits
            (seen_entry entry.now ∷ before done.now) self.new }
        ensures read { IsReadOn M.outside media.old media.new sources.old sources.new
            (reading result) }
    {
        match self.piece(alloc, sources, media, s, history, done, entry)? {
            Some(piece) => stands(alloc, media, master, piece.place, piece.bytes.as_slice()),
            None => Ok(false),
        }
    }
}
