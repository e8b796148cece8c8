//! The accepted edits of a run, and what each of them changes of the session.
ghost use Rattle.std.specs.Prelude.{◌≡◌, ◌≤◌, All, IsTrue, IfOk, length, map};
ghost use Rattle.session_model.specs.Valid.{IsValid};
ghost use Rattle.engine_model.specs.Edits.{keeps_forms};
ghost use Rattle.session_change.specs.Change.{change_seen};
ghost use Rattle.edit_history.specs.History.{HistoryState, IsHistoryOf, NamesFirst};

use crate::step::step;
use edition_log::Edition;
use ses_io::{FixedList, NoMemory, TryClone};
use session_change::Change;
use session_model::{Edit, EditList, Session};
use std::alloc::Global;
use std::marker::Model;

/// The edits of a run, one accepted after the other, each with what it changes. Contracts see it as a record of
/// `specs/History.antt`.
#[derive(Drop)]
pub struct EditHistory {
    edits: EditList,
    /// As many as edits.
    changes: FixedList<Change>,
}

impl Model for EditHistory {
    ghost use Rattle.std.specs.Prelude.{map};
    ghost use Rattle.session_change.specs.Change.{change_seen};
    ghost use Rattle.edit_history.specs.History.{HistoryState};

    ghost Value = { HistoryState };

    ghost view = { λ h. record {
      edits = h.edits.items;
      changes = map change_seen h.changes.items;
    } };
}

/// Why edits are no history.
#[derive(Clone, Copy, Debug, PartialEq, Eq)]
pub enum HistoryRefusal {
    /// This edit, from 1, is the first that is refused in its turn, or comes behind a quit.
    Refused(u32),
    /// A list got no memory.
    NoMemory,
}

impl From<NoMemory> for HistoryRefusal {
    ghost use Rattle.std.specs.Prelude.{◌≡◌};
    ghost use Rattle.edit_history.specs.declared.history.HistoryRefusal.TheVariants as why;

    ghost from_gives = { λ _ e. e ≡ why.NoMemory };

    fn from(_error: NoMemory) -> HistoryRefusal {
        HistoryRefusal::NoMemory
    }
}

// What each of the edits changes, in their order.
fn changes_of(
    alloc: Global,
    s: &Session,
    edits: &[Edit],
) -> Result<FixedList<Change>, HistoryRefusal>
    requires valid { IsValid s.now }
    requires forms { All (λ e. IsTrue (keeps_forms e)) edits.now }
    requires few { length edits.now ≤ 10000 }
    ensures history { IfOk result (λ l. IsHistoryOf s.now record {
      edits = edits.now;
      changes = map change_seen l.items;
    }) }
    ensures refused { NamesFirst s.now edits.now result }
{
    let mut now = Edition::opening(alloc, s.try_clone(alloc)?)?;
    let mut changes = FixedList::new(alloc, edits.len() as u32)?;
    for edit in edits {
        let Some(change) = step(&mut now, edit) else {
            return Err(HistoryRefusal::Refused(now.number() + 1));
        };
        changes.push(change);
    }
    Ok(changes)
}

impl EditHistory {
    /// Takes the edits in their order, from a session as it was opened. Their ids are 1..999,999, their lengths 1 or more,
    /// and their layers at most 65,535, as the forms of control lines have them.
    pub fn of(alloc: Global, s: &Session, edits: EditList) -> Result<EditHistory, HistoryRefusal>
        requires valid { IsValid s.now }
        requires forms { All (λ e. IsTrue (keeps_forms e)) edits.items }
        requires few { length edits.items ≤ 10000 }
        ensures history { IfOk result (IsHistoryOf s.now) }
        ensures edits { IfOk result (λ h. h.edits ≡ edits.items) }
        ensures refused { NamesFirst s.now edits.items result }
    {
        let changes = changes_of(alloc, s, edits.as_slice())?;
        Ok(EditHistory { edits, changes })
    }

    /// The edits, the first one first.
    pub fn edits(&self) -> &[Edit]
        ensures { result.now ≡ self.now.edits }
    {
        self.edits.as_slice()
    }

    /// What each of them changes, in their order.
    pub fn changes(&self) -> &[Change]
        ensures { map change_seen result.now ≡ self.now.changes }
    {
        self.changes.as_slice()
    }
}
