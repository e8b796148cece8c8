//! The end of the list of edits: all that the workers saw of it are its first edits.
ghost use Rattle.std.specs.Prelude.{◌≡◌, true, false};
ghost use mathlib.Core.List.{IsPrefix};
ghost use Rattle.session_model.specs.declared.session.Session.{Session as Opening};
ghost use Rattle.edition_log.specs.EditionState.{IsEditionOf};

use edition_log::Edition;
use route_lists::{ListReader, Lists};
use std::sync::Wait;

/// The newest edition, once no edit follows.
#[derive(Drop)]
pub(crate) struct Tied {
    pub(crate) edition: Edition,
    /// Whether both readers found just its edits when they entered once more.
    pub(crate) tied: bool,
    /// Whether there was memory for its end.
    pub(crate) ended: bool,
}

// Whether a reader that enters once more finds just the edits of the list. No clause knows any more that it reads this list, so the
// edits are compared. They are equal, unless the reader is refused.
fn finds_all<R: Wait>(reader: ListReader, lists: &Lists<R>) -> bool
    ensures { result ≡ true → IsPrefix reader.edition.edits lists.now.edition.edits }
{
    match reader.enter() {
        Ok(reader) => reader.is_at(lists),
        Err(_) => false,
    }
}

/// Publishes the end of the list, has both readers enter once more, and gives the newest edition.
pub(crate) fn tie<'r, R: Wait>(lists: Lists<'r, R>, first: ListReader, second: ListReader) -> Tied
    requires not_ended { lists.edition.ended ≡ false }
    ensures edits { result.edition.edits ≡ lists.entry.edition.edits }
    ensures stays { (s : Opening) → IsEditionOf s lists.entry.edition → IsEditionOf s result.edition }
    ensures first { result.tied ≡ true → IsPrefix first.edition.edits result.edition.edits }
    ensures second { result.tied ≡ true → IsPrefix second.edition.edits result.edition.edits }
{
    let (lists, answer) = lists.end();
    let sees_first = finds_all(first, &lists);
    let sees_second = finds_all(second, &lists);
    Tied {
        edition: lists.close(),
        tied: sees_first && sees_second,
        ended: answer.is_ok(),
    }
}
