//! What the samples of a captured block are, as a function that does nothing and whose contract is the law.
ghost use Rattle.track_capture.specs.Picked.{TheInputIsPicked};

/// What is picked out of a block of the input is the track's block of it.
pub fn the_input_is_picked()
    ensures { TheInputIsPicked }
{}
