//! The law of changes and the order of routes.
ghost use Rattle.session_change.specs.Laws.{AChangeThatRelinksNothingKeepsTheOrder};

/// An order of a session's routes stays one where a change is of no link.
pub fn a_change_that_relinks_nothing_keeps_the_order()
    ensures { AChangeThatRelinksNothingKeepsTheOrder }
{}
