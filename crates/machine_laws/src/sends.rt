//! What stands says of what was sent of a track: it is ordered, nothing is sent twice, and numbers suffice.

ghost use Rattle.machine_laws.specs.MachineLaws.{StandingIsOrdered, NoneIsSentTwice, FewAreEverSent, NumbersSuffice};

/// What was sent is ordered.
pub fn standing_is_ordered()
    ensures { StandingIsOrdered }
{}

/// No piece of a block, in one playlist edition, is sent twice.
pub fn none_is_sent_twice()
    ensures { NoneIsSentTwice }
{}

/// Hence so many items are sent at most.
pub fn few_are_ever_sent()
    ensures { FewAreEverSent }
{}

/// None is ever refused for want of numbers.
pub fn numbers_suffice()
    ensures { NumbersSuffice }
{}
