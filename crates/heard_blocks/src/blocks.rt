//! The blocks that are heard along a journal.
ghost use Rattle.std.specs.Prelude.{◌≡◌, ◌<◌, ◌≤◌, IfOk, List, OnOk, [], ◌∷◌, length, take, true};
ghost use Rattle.session_model.specs.declared.session.Session.{Session as Opening};
ghost use Rattle.session_model.specs.declared.edit.Edit.{Edit};
ghost use Rattle.session_model.specs.Valid.{IsValid};
ghost use Rattle.engine_model.specs.Fits.{is_lawful_newest};
ghost use Rattle.engine_model.specs.Journal.{Entry as Judgeable};
ghost use Rattle.engine_model.specs.Played.{samples_of};
ghost use Rattle.edition_log.specs.EditionState.{IsEditionOf};
ghost use Rattle.edit_history.specs.History.{IsHistoryOf};
ghost use Rattle.audio_source.specs.Opened.{IsListed};
ghost use Rattle.audio_source.specs.Told.{source_sound};
ghost use Rattle.audio_source.specs.Lines.{HoldsAsRead};
ghost use Rattle.track_render.specs.Reading.{IsReadOn};
ghost use Rattle.cycle_journal.specs.JournalView.{seen_entry};
ghost use Rattle.master_blocks.specs.State.{IsMasterOf};
ghost use Rattle.master_blocks.specs.Bytes.{head_bytes, entry_bytes};
ghost use Rattle.edit_history.specs.Judged.{Judged};
ghost use Rattle.heard_blocks.specs.State.{HasHeard, NextEntry, RollsAt};
ghost use Rattle.heard_blocks.specs.Reading.{IsTold, reading};

use crate::fault::HeardFault;
use crate::lists::HeardLists;
use crate::master::ByteMaster;
use audio_source::Sources;
use cycle_journal::{Entry, State};
use edit_history::EditHistory;
use edition_log::Edition;
use playlist_layers::Scratch;
use ses_io::{Media, NoMemory};
use session_model::Session;
use std::alloc::Global;
use std::marker::Model;

/// Tracks as they are heard along a journal: of each its playlist in the edition that was heard of it last. One session serves
/// all tracks, each with a list of its own edition, so that no edition but the newest is kept.
#[derive(Drop)]
pub struct HeardBlocks {
    pub(crate) lists: HeardLists,
    pub(crate) scratch: Scratch,
    pub(crate) samples: Vec<i32>,
    pub(crate) master: ByteMaster,
}

impl Model for HeardBlocks {
    ghost use Rattle.std.specs.Prelude.{length};
    ghost use Rattle.heard_blocks.specs.State.{HeardState};

    ghost Value = { HeardState };

    ghost view = { λ b. record {
      lists = b.lists;
      frames = b.scratch;
      room = length b.samples.items;
      master = b.master;
    } };
}

impl HeardBlocks {
    /// Those of a session as it was opened, of which nothing was heard yet.
    pub fn new(alloc: Global, s: &Session) -> Result<HeardBlocks, NoMemory>
        requires valid { IsValid s.now }
        ensures heard { IfOk result (λ h. (edits : List Edit) → HasHeard s.now edits [] h) }
    {
        let room = 2 * s.block as usize;
        Ok(HeardBlocks {
            lists: HeardLists::new(alloc, s)?,
            scratch: Scratch::new(alloc, s.block)?,
            samples: vec![in alloc; 0; room]?,
            master: ByteMaster::new(alloc, s)?,
        })
    }

    /// The header of the master's file of so many blocks, at most 100,000.
    pub fn head(&mut self, alloc: Global, blocks: u32) -> Result<Vec<u8>, NoMemory>
        ghost s: { Opening }
        requires of { IsMasterOf s self.old.master }
        requires few { blocks ≤ 100000 }
        ensures head { IfOk result (λ bytes. bytes.items ≡ head_bytes s blocks) }
        ensures heard { (edits : List Edit) (before : List Judgeable)
            → HasHeard s edits before self.old → HasHeard s edits before self.new }
    {
        self.master.head(alloc, blocks)
    }

    // The bytes of the block of an entry that rolls.
    fn roll<M: Media>(
        &mut self,
        alloc: Global,
        sources: &mut Sources,
        media: &mut M,
        history: &EditHistory,
        now: &Edition,
        entry: &Entry,
        seq: u32,
    ) -> Result<Vec<u8>, HeardFault>
        ghost next: { NextEntry }
        requires entry { seen_entry entry.now ≡ next.entry }
        requires history { IsHistoryOf next.session history.now }
        requires now { IsEditionOf next.session now.now
            × (now.now.edits ≡ take next.entry.edition history.now.edits) }
        requires heard { HasHeard next.session history.now.edits next.before self.old }
        requires lawful { is_lawful_newest next.session history.now.edits
            (next.entry ∷ next.before) ≡ true }
        requires few { length next.before < 100000 }
        requires sources { IsListed next.session.rate next.session.sources.items
            sources.old.opened }
        requires rolls { RollsAt next.entry.state seq }
        ensures told { IsTold M.outside media.old sources.old → IfOk result (λ bytes. bytes.items
            ≡ entry_bytes next.session history.now.edits (samples_of
            (source_sound (M.outside.files media.old) sources.old.opened)
            next.session history.now.edits) next.entry) }
        ensures heard { OnOk result (HasHeard next.session history.now.edits
            (next.entry ∷ next.before) self.new) }
        ensures read { IsReadOn M.outside media.old media.new sources.old sources.new
            (reading result) }
    {
        // It shows what every edition keeps.
        let _session = now.session();
        self.put_tracks(sources, media, history, now, entry, seq)?;
        Ok(self.master.roll(alloc, now, seq)?)
    }

    /// The bytes of the master's block that an entry stands for: what was heard of each track, mixed by the routes of the
    /// entry's edition, or silence where it doesn't roll. `now` is that edition. After a fault the lists aren't said.
    pub fn block<M: Media>(
        &mut self,
        alloc: Global,
        sources: &mut Sources,
        media: &mut M,
        history: &EditHistory,
        now: &Edition,
        entry: &Entry,
    ) -> Result<Vec<u8>, HeardFault>
        ghost judged: { Judged }
        requires history { IsHistoryOf judged.session history.now }
        requires now { IsEditionOf judged.session now.now
            × (now.now.edits ≡ take entry.now.edition history.now.edits) }
        requires heard { HasHeard judged.session history.now.edits judged.entries self.old }
        requires lawful { is_lawful_newest judged.session history.now.edits
            (seen_entry entry.now ∷ judged.entries) ≡ true }
        requires few { length judged.entries < 100000 }
        requires sources { IsListed judged.session.rate judged.session.sources.items
            sources.old.opened }
        ensures told { M.outside.tells → HoldsAsRead (M.outside.files media.old) sources.old
            → IfOk result (λ bytes. bytes.items ≡ entry_bytes judged.session history.now.edits
            (samples_of (source_sound (M.outside.files media.old) sources.old.opened)
            judged.session history.now.edits) (seen_entry entry.now)) }
        ensures heard { OnOk result (HasHeard judged.session history.now.edits
            (seen_entry entry.now ∷ judged.entries) self.new) }
        ensures read { IsReadOn M.outside media.old media.new sources.old sources.new
            (reading result) }
    {
        match entry.state {
            State::Stopped | State::Seeking { .. } => Ok(self.master.rest(alloc)?),
            State::Rolling { seq, .. } => {
                self.roll(alloc, sources, media, history, now, entry, seq)
            }
        }
    }
}
