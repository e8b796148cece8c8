//! The laws of a run on one thread: where nothing is due any more, the next entry is the plain one.

ghost use Rattle.engine_laws.specs.SerialLaws.{DueIsNotHeld, FewAreSent, NoneIsHeldLater, NothingDueIsReady, ReadyEntryIsPlain};

/// What is due isn't held where the next block by the acknowledgements is next.
pub fn due_is_not_held()
    ensures { DueIsNotHeld }
{}

/// What isn't held isn't held later.
pub fn none_is_held_later()
    ensures { NoneIsHeldLater }
{}

/// Where nothing is due of a track, and a cycle is still to come, it has what that cycle plays.
pub fn nothing_due_is_ready()
    ensures { NothingDueIsReady }
{}

/// Where each track has what the cycle plays, its entry is the plain one.
pub fn ready_entry_is_plain()
    ensures { ReadyEntryIsPlain }
{}

/// Of a track whose playlist no edit has touched few items are sent: each block of the generation once, and one mark.
pub fn few_are_sent()
    ensures { FewAreSent }
{}
