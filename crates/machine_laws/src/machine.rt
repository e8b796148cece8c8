//! Every event of the core machine keeps what stands.

ghost use Rattle.machine_laws.specs.MachineLaws.{StandsAtFirst, EveryEventKeepsIt, EveryListKeepsIt};

/// All stands before the first event.
pub fn stands_at_first()
    ensures { StandsAtFirst }
{}

/// Every event keeps it.
pub fn every_event_keeps_it()
    ensures { EveryEventKeepsIt }
{}

/// Hence it stands after every list of events.
pub fn every_list_keeps_it()
    ensures { EveryListKeepsIt }
{}
