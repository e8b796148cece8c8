//! The judge of a journal: the edition that it is in, the one that is settled, and the numbers of each track.
ghost use Rattle.std.specs.Prelude.{◌≡◌, ◌<◌, ◌≤◌, List, [], ◌∷◌, true, length, IfOk};
ghost use Rattle.session_model.specs.declared.edit.Edit.{Edit};
ghost use Rattle.session_model.specs.Valid.{IsValid};
ghost use Rattle.engine_model.specs.Fits.{is_lawful_after};
ghost use Rattle.cycle_journal.specs.JournalView.{seen_entry};
ghost use Rattle.edit_history.specs.History.{IsHistoryOf};
ghost use Rattle.journal_judge.specs.Deciding.{goes_on, is_good};
ghost use Rattle.journal_judge.specs.Noting.{HasRoom, AreNoted, rolled_after};
ghost use Rattle.edit_history.specs.Judged.{Judged};
ghost use Rattle.journal_judge.specs.Judged.{JudgeState, HasEntered, HasJudged};

use crate::advance::advance;
use crate::notes::note_tracks;
use crate::state::{fits, is_rolling};
use crate::tracks::TrackCount;
use cycle_journal::Entry;
use edit_history::EditHistory;
use edition_log::Edition;
use ses_io::{NoMemory, TryClone};
use session_model::Session;
use std::alloc::Global;
use std::marker::Model;

/// What is kept of the entries that were judged. Contracts see it as a record of `specs/Judged.antt`; `HasJudged` says
/// that it is kept of just these entries. Only `new` takes memory.
#[derive(Drop)]
pub struct Judge {
    /// The edition of the newest entry.
    pub(crate) entered: Edition,
    /// The edition that the newest entry has settled.
    pub(crate) settled: Edition,
    pub(crate) tracks: [TrackCount; 32],
    /// How many entries roll in the generation of `entered`.
    pub(crate) rolled: u32,
}

impl Model for Judge {
    ghost use Rattle.std.specs.Prelude.{◌≡◌, length};
    ghost use Rattle.journal_judge.specs.Judged.{JudgeState};

    ghost Value = { JudgeState };

    ghost view = { λ j. record {
      entered = j.entered;
      settled = j.settled;
      tracks = j.tracks;
      rolled = j.rolled;
    } };

    ghost invariant = { λ j. length j.tracks ≡ 32 };
}

impl Judge {
    /// A judge of a session as it was opened, behind no entry.
    pub fn new(alloc: Global, s: &Session) -> Result<Judge, NoMemory>
        requires { IsValid s.now }
        ensures { IfOk result (λ j. (edits : List Edit) → HasJudged s.now edits [] j) }
    {
        Ok(Judge {
            entered: Edition::opening(alloc, s.try_clone(alloc)?)?,
            settled: Edition::opening(alloc, s.try_clone(alloc)?)?,
            tracks: [TrackCount::first(); 32],
            rolled: 0,
        })
    }

    // Whether its edition and what it has settled name edits, and are no older than those before.
    fn goes_on(&self, history: &EditHistory, entry: &Entry) -> bool
        ensures { result ≡ goes_on (length history.now.edits) self.now (seen_entry entry.now) }
    {
        entry.edition as usize <= history.edits().len()
            && entry.settled <= entry.edition
            && self.entered.number() <= entry.edition
            && self.settled.number() <= entry.settled
    }

    // Enters the edition of an entry, and the one that it has settled.
    fn enter(&mut self, history: &EditHistory, entry: &Entry)
        ghost before: { Judged }
        requires history { IsHistoryOf before.session history.now }
        requires judged { HasJudged before.session history.now.edits before.entries self.old }
        requires on { goes_on (length history.now.edits) self.old (seen_entry entry.now) ≡ true }
        ensures { HasEntered before.session history.now.edits before.entries
            entry.now.edition entry.now.settled self.new }
    {
        let generation = self.entered.transport().generation;
        advance(&mut self.entered, history, entry.edition);
        advance(&mut self.settled, history, entry.settled);
        if self.entered.transport().generation != generation {
            self.rolled = 0;
        }
    }

    // Whether the entry is good in its edition, which was entered.
    fn is_good(&self, history: &EditHistory, entry: &Entry) -> bool
        requires { length self.now.entered.session.tracks.items
            ≡ length self.now.settled.session.tracks.items }
        ensures { result ≡ is_good history.now.changes self.now (seen_entry entry.now) }
    {
        let transport = self.entered.transport();
        let tracks = self.entered.session().tracks.len();
        !transport.quit
            && fits(transport, tracks as u32, self.rolled, entry.state)
            && entry.notes.len() == tracks
            && self.are_good_notes(history, is_rolling(entry.state), entry.notes.as_slice())
    }

    // Takes up an entry that is lawful.
    fn note(&mut self, entry: &Entry)
        requires room { self.old.rolled < 100000 }
        requires few { HasRoom (length entry.now.notes.items) self.old.tracks }
        ensures tracks { AreNoted self.old.tracks (seen_entry entry.now).notes self.new.tracks }
        ensures rolled { self.new.rolled
            ≡ rolled_after (seen_entry entry.now).state self.old.rolled }
        ensures same { self.new.entered ≡ self.old.entered }
        ensures floor { self.new.settled ≡ self.old.settled }
    {
        if is_rolling(entry.state) {
            self.rolled += 1;
        }
        note_tracks(&mut self.tracks, entry.notes.as_slice());
    }

    /// Whether an entry is lawful behind those that were judged before, the newest first. Where it isn't, nothing is said
    /// of the judge from then on. It takes the time of its tracks, and of the edits since the entry before.
    pub fn judge(&mut self, history: &EditHistory, entry: &Entry) -> bool
        ghost before: { Judged }
        requires history { IsHistoryOf before.session history.now }
        requires judged { HasJudged before.session history.now.edits before.entries self.old }
        requires few { length before.entries < 100000 }
        ensures lawful { result ≡ is_lawful_after before.session history.now.edits
            before.entries (seen_entry entry.now) }
        ensures judged { result ≡ true → HasJudged before.session history.now.edits
            (seen_entry entry.now ∷ before.entries) self.new }
    {
        if !self.goes_on(history, entry) {
            return false;
        }
        self.enter(history, entry);
        if !self.is_good(history, entry) {
            return false;
        }
        self.note(entry);
        true
    }

    /// The edition of the entry that was judged last, edition 0 before the first.
    pub fn now(&self) -> &Edition
        ensures { result.now ≡ self.now.entered }
    {
        &self.entered
    }
}
