//! The laws of what a journal says of the rings: it stays true while items are received and edits come.

ghost use Rattle.engine_laws.specs.TruthLaws.{TruthStandsWhileReceiving, TruthStandsWhileEditing, TruthStandsWithItsEntry, TruthStandsOfTheRing};

/// What is true of a track stands when more is received and looked for.
pub fn truth_stands_while_receiving()
    ensures { TruthStandsWhileReceiving }
{}

/// It stands when more edits come.
pub fn truth_stands_while_editing()
    ensures { TruthStandsWhileEditing }
{}

/// The entry of a cycle, after a look of its own, says what is true.
pub fn truth_stands_with_its_entry()
    ensures { TruthStandsWithItsEntry }
{}

/// What is true by the items received is true of the ring, whatever else was sent on it.
pub fn truth_stands_of_the_ring()
    ensures { TruthStandsOfTheRing }
{}
