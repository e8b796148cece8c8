//! Why the replies of a run are true.
ghost use Rattle.serial_laws.specs.Truth.{AnswersHold, AnswersHoldOn, WhatHoldsIsTrue};

/// What control answers holds when it is given, where the journal is lawful.
pub fn answers_hold()
    ensures { AnswersHold }
{}

/// It holds while the journal grows.
pub fn answers_hold_on()
    ensures { AnswersHoldOn }
{}

/// Each reply that holds is true of the journal, and of what was acknowledged to control.
pub fn what_holds_is_true()
    ensures { WhatHoldsIsTrue }
{}
