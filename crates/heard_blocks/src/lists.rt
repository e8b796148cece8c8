//! A session whose tracks have the playlists of editions of their own: each is brought on by the changes of its playlist.
ghost use Rattle.std.specs.Prelude.{◌≡◌, ◌<◌, ◌≤◌, IfOk, List, length, replicate, slice_index_or, slice_set};
ghost use Rattle.session_model.specs.declared.session.Session.{Session as Opening};
ghost use Rattle.session_model.specs.declared.edit.Edit.{Edit};
ghost use Rattle.session_model.specs.Valid.{IsValid};
ghost use Rattle.edit_history.specs.History.{IsHistoryOf};
ghost use Rattle.heard_blocks.specs.Lists.{HasLists, IsBrought};

use edit_history::EditHistory;
use edition_log::Edition;
use ses_io::{NoMemory, TryClone};
use session_change::make;
use session_model::Session;
use std::alloc::Global;
use std::marker::Model;

/// A session, and of each track the edition whose playlist it has. Contracts see it as a record of `specs/Lists.antt`.
#[derive(Drop)]
pub(crate) struct HeardLists {
    session: Session,
    at: [u32; 32],
}

impl Model for HeardLists {
    ghost use Rattle.heard_blocks.specs.Lists.{ListsState};

    ghost Value = { ListsState };

    ghost view = { λ l. record { session = l.session; at = l.at } };
}

impl HeardLists {
    /// Those of a session as it was opened.
    pub(crate) fn new(alloc: Global, s: &Session) -> Result<HeardLists, NoMemory>
        requires valid { IsValid s.now }
        ensures lists { IfOk result (λ l. (edits : List Edit) → HasLists s.now edits l) }
        ensures first { IfOk result (λ l. l.at ≡ replicate 32 0) }
    {
        // It shows what the types of its session keep.
        let opening = Edition::opening(alloc, s.try_clone(alloc)?)?;
        Ok(HeardLists {
            session: opening.session().try_clone(alloc)?,
            at: [0; 32],
        })
    }

    /// The session with these playlists.
    pub(crate) fn session(&self) -> &Session
        ensures { result.now ≡ self.now.session }
    {
        &self.session
    }

    // Makes the changes of a track's playlist from one edition to another.
    fn change(&mut self, track: u32, to: u32, history: &EditHistory)
        ghost s: { Opening }
        requires history { IsHistoryOf s history.now }
        requires lists { HasLists s history.now.edits self.old }
        requires track { track < length s.tracks.items }
        requires up { slice_index_or self.old.at track 0 ≤ to }
        requires stands { to ≤ length history.now.edits }
        ensures brought { IsBrought s history.now.edits track to self.old.session self.new.session }
        ensures at { self.new.at ≡ self.old.at }
    {
        for edit in self.at[track as usize]..to {
            let change = &history.changes()[edit as usize];
            if change.track() == Some(track) {
                make(&mut self.session, change);
            }
        }
    }

    /// Brings the playlist of a track on to an edition. It takes no memory.
    pub(crate) fn bring(&mut self, track: u32, to: u32, history: &EditHistory)
        ghost s: { Opening }
        requires history { IsHistoryOf s history.now }
        requires lists { HasLists s history.now.edits self.old }
        requires track { track < length s.tracks.items }
        requires up { slice_index_or self.old.at track 0 ≤ to }
        requires stands { to ≤ length history.now.edits }
        ensures lists { HasLists s history.now.edits self.new }
        ensures at { self.new.at ≡ slice_set self.old.at track to }
    {
        self.change(track, to, history);
        self.at[track as usize] = to;
    }
}
