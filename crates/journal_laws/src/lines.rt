//! The laws of control's lines: the edits that they make, what is answered to them, and patience.

ghost use Rattle.journal_laws.specs.LineLaws.{AcceptedByLines, PatienceHasALook, PatienceOfOne, PlainRepliesAreReplies};

/// The edits that lines make are those that a run of their commands makes.
pub fn accepted_by_lines()
    ensures { AcceptedByLines }
{}

/// What a run on one thread answers is a reply to its lines, and true of its journal.
pub fn plain_replies_are_replies()
    ensures { PlainRepliesAreReplies }
{}

/// With a patience of one, each piece that isn't there has one look of its own.
pub fn patience_of_one()
    ensures { PatienceOfOne }
{}

/// With any patience, each has at least that.
pub fn patience_has_a_look()
    ensures { PatienceHasALook }
{}
