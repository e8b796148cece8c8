//! What control answers, whatever letters a run is made of.

ghost use Rattle.machine_laws.specs.Answers.{EditsAreThoseOfLines, RepliesAreThoseOfLines, RepliesAreTrue};

/// Once no line is left, the edits are those that the lines make.
pub fn edits_are_those_of_lines()
    ensures { EditsAreThoseOfLines }
{}

/// Once nothing is waited for either, the replies are replies to the lines.
pub fn replies_are_those_of_lines()
    ensures { RepliesAreThoseOfLines }
{}

/// At any time each reply is true of the journal, and of what was acknowledged to control.
pub fn replies_are_true()
    ensures { RepliesAreTrue }
{}
