//! Why a run comes to its end.

ghost use Rattle.machine_laws.specs.Ends.{TurnsLeaveLess, LooksLeaveAsMuch, CycleMakesItsEntry, EveryRunEnds};

/// A turn that moves something leaves less to move.
pub fn turns_leave_less()
    ensures { TurnsLeaveLess }
{}

/// Look-ups leave as much.
pub fn looks_leave_as_much()
    ensures { LooksLeaveAsMuch }
{}

/// A cycle that is open makes its entry, whatever was received.
pub fn cycle_makes_its_entry()
    ensures { CycleMakesItsEntry }
{}

/// From every machine in which all stands there are letters to its end.
pub fn every_run_ends()
    ensures { EveryRunEnds }
{}
