//! The letters that a run is given, before its serial rest.
ghost use Rattle.serial_laws.specs.SerialLaws.{ARunBegins, TheWorkersGoOn, ControlGoesOn};

/// With no letter and no line a run stands at its beginning.
pub fn a_run_begins()
    ensures { ARunBegins }
{}

/// A letter of the workers leads from a standing to the next, and leaves control as it is.
pub fn the_workers_go_on()
    ensures { TheWorkersGoOn }
{}

/// A letter of control does so by the lines that it takes.
pub fn control_goes_on()
    ensures { ControlGoesOn }
{}
