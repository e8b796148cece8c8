//! The letter of control.
ghost use Rattle.control_letter.specs.Letter.{TheLetterIsDone};

use ses_io::{Sink, Source};

/// What control answers, takes and publishes at its letter is what the core machine does, whatever lines are still to come and
/// whatever fails.
pub fn the_letter_is_done<C: Source, O: Sink>()
    ensures { TheLetterIsDone C.outside O.outside }
{}
