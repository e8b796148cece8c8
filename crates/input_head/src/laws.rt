//! What holds of the channels that an input has to have.
ghost use Rattle.input_head.specs.Laws.{WantedIsTheGreatest};

/// They are enough for each track with an input, and no more than one of them takes.
pub fn wanted_is_the_greatest()
    ensures { WantedIsTheGreatest }
{}
