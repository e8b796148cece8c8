//! An edition goes on by the edits of a history.
ghost use Rattle.std.specs.Prelude.{◌≤◌, length};
ghost use Rattle.session_model.specs.declared.session.Session.{Session as Opening};
ghost use Rattle.edit_history.specs.History.{IsHistoryOf};
ghost use Rattle.journal_judge.specs.Judged.{IsAt};

use edit_history::EditHistory;
use edition_log::Edition;

/// Brings an edition on to a later one of its session.
pub(crate) fn advance(e: &mut Edition, history: &EditHistory, to: u32)
    ghost s: { Opening }
    requires history { IsHistoryOf s history.now }
    requires from { IsAt s history.now.edits (length e.old.edits) e.old }
    requires on { length e.old.edits ≤ to }
    requires within { to ≤ length history.now.edits }
    ensures at { IsAt s history.now.edits to e.new }
{
    for k in e.number()..to {
        let Ok(_) = e.apply(&history.edits()[k as usize]) else {
            unreachable!()
        };
    }
}
