//! The laws of entries that a process makes while more is received, edits come, and its looks find nothing.

ghost use Rattle.engine_laws.specs.MadeLaws.{MadeGoesOn, MadeStays, WhatIsMadeIsLawful, WhatIsMadeIsMissing, LooksStandWhileReceiving, LooksStandWhileEditing, LooksStandWithItsEntry};

/// Made entries stay made when the process enters a later edition and receives more.
pub fn made_goes_on()
    ensures { MadeGoesOn }
{}

/// They stay made over every list that begins with the edits that the process saw.
pub fn made_stays()
    ensures { MadeStays }
{}

/// They are a lawful journal, where what was received is ordered.
pub fn what_is_made_is_lawful()
    ensures { WhatIsMadeIsLawful }
{}

/// Each piece that they name as missing wasn't among the items received by then.
pub fn what_is_made_is_missing()
    ensures { WhatIsMadeIsMissing }
{}

/// What a journal says of pieces that weren't there stands when more is received and looked for.
pub fn looks_stand_while_receiving()
    ensures { LooksStandWhileReceiving }
{}

/// It stands when more edits come.
pub fn looks_stand_while_editing()
    ensures { LooksStandWhileEditing }
{}

/// It stands with the entry of a cycle, in whichever edition, after a look-up of its own.
pub fn looks_stand_with_its_entry()
    ensures { LooksStandWithItsEntry }
{}
