//! Edits that may follow.
ghost use mathlib.Core.List.{IsPrefix};
ghost use Rattle.session_model.specs.declared.session.Session.{Session as Opening};
ghost use Rattle.edition_log.specs.EditionState.{IsEditionOf};

use edit_script::{Command, parse, read_can_be_said};
use edition_log::{Edition, Refusal};

/// Takes the edit of a control line in; None where the line is none, or none may follow.
pub(crate) fn carry_out(e: &mut Edition, line: &[u8]) -> Option<Result<u32, Refusal>>
    ensures stays { (s : Opening) → IsEditionOf s e.old → IsEditionOf s e.new }
    ensures more { IsPrefix e.old.edits e.new.edits }
{
    // Its contract is the law that what is read keeps its forms.
    read_can_be_said();
    match parse(line) {
        Ok(Command::Do(edit)) if !e.ended() && !e.transport().quit => Some(e.apply(&edit)),
        _ => None,
    }
}
