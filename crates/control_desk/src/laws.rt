//! Control follows the core machine. Each law is the contract of a function that does nothing, and its statement stands in
//! `specs/`.
ghost use Rattle.control_desk.specs.Laws.{WhatIsAwaitedStands, WhatIsOverIsAnswered, LinesAreDone, EditsAreSaid, EditsAreDone};

/// What is waited for and isn't over stands.
pub fn what_is_awaited_stands()
    ensures { WhatIsAwaitedStands }
{}

/// Where it is over it is answered, and the next line is carried out.
pub fn what_is_over_is_answered()
    ensures { WhatIsOverIsAnswered }
{}

/// A line that is no edit is answered or waits.
pub fn lines_are_done()
    ensures { LinesAreDone }
{}

/// A line that gives an edit says just that.
pub fn edits_are_said()
    ensures { EditsAreSaid }
{}

/// An edit that was published is answered, and after an accepted quit no line follows.
pub fn edits_are_done()
    ensures { EditsAreDone }
{}
