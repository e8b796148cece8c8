//! What stands says of the acknowledgements that a butler takes.

ghost use Rattle.machine_laws.specs.MachineLaws.{TurnsGoByTheNewest};

/// A turn may go by the newest acknowledgement alone.
pub fn turns_go_by_the_newest()
    ensures { TurnsGoByTheNewest }
{}
