//! The laws of what is sent: the order is kept by every step of a butler, and what it says.

ghost use Rattle.engine_laws.specs.OrderLaws.{SendingKeeps, EnteringKeeps, SeeingMoreKeeps, ReceivedIsOrdered, OneMoreIsOrdered, EachFollows, MarksBind, NewestNeverFallsAlong};

/// Sending what is due keeps the order, whatever was acknowledged, and however deep the ring is.
pub fn sending_keeps()
    ensures { SendingKeeps }
{}

/// Entering a later edition keeps the order.
pub fn entering_keeps()
    ensures { EnteringKeeps }
{}

/// Further edits keep the order.
pub fn seeing_more_keeps()
    ensures { SeeingMoreKeeps }
{}

/// What was received of an ordered list is ordered.
#[tactic(auto, using(crate::proofs::GrowLemmas::ordered_received))]
pub fn received_is_ordered()
    ensures { ReceivedIsOrdered }
{}

/// An item that may follow keeps a list ordered whose oldest item stands first, as a ring has it.
#[tactic(auto, using(crate::proofs::GrowLemmas::ordered_push))]
pub fn one_more_is_ordered()
    ensures { OneMoreIsOrdered }
{}

/// Each item of an ordered list may follow those before it.
#[tactic(auto, using(crate::proofs::GrowLemmas::each_follows))]
pub fn each_follows()
    ensures { EachFollows }
{}

/// A mark says the truth of every block that it is in force for, before and after it.
#[tactic(auto, using(crate::proofs::Laws::marks_bind))]
pub fn marks_bind()
    ensures { MarksBind }
{}

/// Along the blocks of a generation the newest pieces are never older.
pub fn newest_never_falls_along()
    ensures { NewestNeverFallsAlong }
{}
