//! What holds of every text that is accepted.
ghost use Rattle.session_walk.specs.Laws.{WrittenIsInRange, WrittenIsSaid};

/// What is read of a text is in range, each key of it.
pub fn written_is_in_range()
    ensures { WrittenIsInRange }
{}

/// What is read of a text is what it says: at each key its value, and the default where the key is absent.
pub fn written_is_said()
    ensures { WrittenIsSaid }
{}
