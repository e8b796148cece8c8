//! Reading and writing lines are one another's inverse.
ghost use Rattle.edit_script.specs.Laws.{PrintedIsRead, LinesTellEdits, ReadCanBeSaid, WaitsAreFew, EachVerbMakes, FirstWrongIsNamed, LinesAreShort};

/// What is printed is read: the canonical line of an edit says just that edit.
pub fn printed_is_read()
    ensures { PrintedIsRead }
{}

/// No two edits have one line.
pub fn lines_tell_edits()
    ensures { LinesTellEdits }
{}

/// An edit that is read keeps its forms, so its canonical line says it again.
pub fn read_can_be_said()
    ensures { ReadCanBeSaid }
{}

/// A wait that is read is 1 to 100,000 cycles.
pub fn waits_are_few()
    ensures { WaitsAreFew }
{}

/// Each command makes something of words that keep its forms.
pub fn each_verb_makes()
    ensures { EachVerbMakes }
{}

/// A word that is refused is the first from the left whose form fails.
pub fn first_wrong_is_named()
    ensures { FirstWrongIsNamed }
{}

/// The longest canonical line has 129 bytes.
pub fn lines_are_short()
    ensures { LinesAreShort }
{}
