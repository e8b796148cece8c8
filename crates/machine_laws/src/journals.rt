//! What stands makes the journal lawful, and true of the rings.

ghost use Rattle.machine_laws.specs.MachineLaws.{StandingIsLawful, StandingIsTruthful};

/// The journal is lawful over all edits that were published.
pub fn standing_is_lawful()
    ensures { StandingIsLawful }
{}

/// Each short, seek and lost block that it names is true of the rings.
pub fn standing_is_truthful()
    ensures { StandingIsTruthful }
{}
