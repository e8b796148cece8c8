//! One more edit of a history, and what it changes.
ghost use Rattle.std.specs.Prelude.{◌≡◌, IsTrue, false};
ghost use Rattle.session_model.specs.declared.session.Session.{Session as Opening};
ghost use Rattle.engine_model.specs.Edits.{keeps_forms};
ghost use Rattle.edition_log.specs.EditionState.{IsEditionOf};
ghost use Rattle.edit_history.specs.History.{Takes};

use edit_resolve::change_of;
use edition_log::Edition;
use session_change::Change;
use session_model::Edit;

/// Takes in an edit and answers what it changes, or changes nothing: where it is refused, or comes behind a quit.
pub(crate) fn step(now: &mut Edition, edit: &Edit) -> Option<Change>
    requires forms { IsTrue (keeps_forms edit.now) }
    requires goes_on { now.old.ended ≡ false }
    ensures takes { Takes now.old edit.now result now.new }
    ensures stays { (s : Opening) → IsEditionOf s now.old → IsEditionOf s now.new }
{
    if now.transport().quit {
        return None;
    }
    let change = change_of(now.session(), now.transport().wrap, edit).ok()?;
    now.apply(edit).ok()?;
    Some(change)
}
