//! The law of the order of what is sent.

ghost use Rattle.journal_laws.specs.OrderWords.{OrderedAsWorded};

/// What is sent of a track is ordered exactly where each sentence of the order holds of it.
pub fn ordered_as_worded()
    ensures { OrderedAsWorded }
{}
