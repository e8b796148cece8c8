//! What holds of every session that is read.
ghost use Rattle.session_toml.specs.Laws.{AcceptedIsValid, AcceptedIsSaid, FirstVersionIsLinear};

/// An accepted session is valid: the engine takes it.
pub fn accepted_is_valid()
    ensures { AcceptedIsValid }
{}

/// An accepted session is what its text says: at each key its value, and the default where the key is absent. Names are the
/// places of the sources and routes that have them.
pub fn accepted_is_said()
    ensures { AcceptedIsSaid }
{}

/// In version 1 fades are linear: each region of an accepted session has both shapes linear.
pub fn first_version_is_linear()
    ensures { FirstVersionIsLinear }
{}
