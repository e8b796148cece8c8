//! The rest of a run, once its letters are over.

ghost use Rattle.machine_laws.specs.Ends.{TheRestIsOne, TheRestLeavesNothing, ThePlainRunIsReached};

/// The letters of the rest are one list.
pub fn the_rest_is_one()
    ensures { TheRestIsOne }
{}

/// They leave nothing to do.
pub fn the_rest_leaves_nothing()
    ensures { TheRestLeavesNothing }
{}

/// For every valid session and list of lines there is a run on one thread, and it is the plain one.
pub fn the_plain_run_is_reached()
    ensures { ThePlainRunIsReached }
{}
