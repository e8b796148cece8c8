//! The laws of a journal that is made while items are received and edits come.

ghost use Rattle.engine_laws.specs.JournalInvariant.{StandsWhileReceiving, StandsWhileEditing, StandsWithItsEntry};

/// What stands of a journal stands when more is received.
pub fn stands_while_receiving()
    ensures { StandsWhileReceiving }
{}

/// It stands when more edits come.
pub fn stands_while_editing()
    ensures { StandsWhileEditing }
{}

/// The entry of a cycle in the newest edition keeps it lawful, and stands itself.
pub fn stands_with_its_entry()
    ensures { StandsWithItsEntry }
{}
