//! What the writer and each reader know of the shared list, and the rule that ties it to the list.
use crate::shelf::Shelf;
use atomic_table::{Join, Split};
use crossbeam_utils::rule::{Outcome, Protocol};
use session_model::Edit;
use std::collections::LinkedList;

/// What one of them saw last, and what it was told of. No value of it is made.
pub struct Known {
    pub seen: LinkedList<Edit>,
    pub ended: bool,
    pub told: LinkedList<Edit>,
    pub told_end: bool,
}

/// What was seen and told are beginnings of the list, which stands after the end.
pub struct OneList;

impl Protocol<Shelf, Known> for OneList {
    ghost use Rattle.route_lists.specs.Rule.{AllFit, newcomer};

    ghost holds = { λ s. AllFit s.edits.items s.ended };

    ghost first = { newcomer };
}

/// What a publishing or an entering tells.
pub(crate) struct Looks;

impl Outcome<Shelf, Known> for Looks {
    ghost use Rattle.route_lists.specs.Rule.{Sees};

    ghost then = { λ v _ y w. Sees v y.edits.items y.ended w };
}

/// A note of all that is known.
pub(crate) struct Note;

impl Split<Known> for Note {
    ghost left = { λ v. v };

    ghost right = { λ v. v };
}

/// Being told what a note has seen.
pub(crate) struct Hear;

impl Join<Known> for Hear {
    ghost use Rattle.route_lists.specs.Rule.{informed, newcomer};

    ghost both = { informed };

    ghost spent = { newcomer };
}
