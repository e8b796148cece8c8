//! The laws of the few numbers that a butler keeps of a track in place of what it sent.

ghost use Rattle.engine_laws.specs.NumbersLaws.{NumbersSayWhatIsDue, NewGenerationHasNothing, RevisionIsFresh, NewBlockIsFarthest, MarkChangesNothing, TouchedIsStale, NewestMarkIsOfItsEdition, MarksAreHeldOrInForce, NewestMarkIsInForce};

/// Five numbers say what is due, whatever was sent.
#[tactic(auto, using(crate::proofs::DueLemmas::due_after_is))]
pub fn numbers_say_what_is_due()
    ensures { NumbersSayWhatIsDue }
{}

/// In a new generation nothing was sent.
pub fn new_generation_has_nothing()
    ensures { NewGenerationHasNothing }
{}

/// The farthest stale block is fresh once it was sent again.
#[tactic(auto, using(crate::proofs::DueLemmas::revise_keeps))]
pub fn revision_is_fresh()
    ensures { RevisionIsFresh }
{}

/// A new block is the farthest.
#[tactic(auto, using(crate::proofs::DueLemmas::place_keeps))]
pub fn new_block_is_farthest()
    ensures { NewBlockIsFarthest }
{}

/// A mark changes none of these numbers.
#[tactic(auto, using(crate::proofs::DueLemmas::mark_keeps))]
pub fn mark_changes_nothing()
    ensures { MarkChangesNothing }
{}

/// An edit of the playlist makes all blocks stale that were sent.
#[tactic(auto, using(crate::proofs::DueLemmas::touch_keeps))]
pub fn touched_is_stale()
    ensures { TouchedIsStale }
{}

/// Whether the mark of an edition was sent is seen at the newest mark.
#[tactic(auto, using(crate::proofs::MarkLemmas::marked_is))]
pub fn newest_mark_is_of_its_edition()
    ensures { NewestMarkIsOfItsEdition }
{}

/// A mark is held exactly where it isn't in force.
#[tactic(auto, using(crate::proofs::MarkLemmas::held_or_in_force))]
pub fn marks_are_held_or_in_force()
    ensures { MarksAreHeldOrInForce }
{}

/// Where all marks are in force, the newest is the greatest.
#[tactic(auto, using(crate::proofs::MarkLemmas::force_is))]
pub fn newest_mark_is_in_force()
    ensures { NewestMarkIsInForce }
{}
