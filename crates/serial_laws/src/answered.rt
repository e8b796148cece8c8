//! What the lines of a run have made so far.
ghost use Rattle.serial_laws.specs.Answered.{NothingIsAnsweredAtFirst, EachLineIsAnswered, ItGoesByTheEdits, AllIsAnsweredAtTheEnd};

/// Before the first line there is no edit and no reply.
pub fn nothing_is_answered_at_first()
    ensures { NothingIsAnsweredAtFirst }
{}

/// A letter of control keeps it, by the lines that it takes, whatever the workers did before it.
pub fn each_line_is_answered()
    ensures { EachLineIsAnswered }
{}

/// It goes by the edits alone, and by what control awaits and has answered.
pub fn it_goes_by_the_edits()
    ensures { ItGoesByTheEdits }
{}

/// Once no line follows, edits and replies are those of the lines.
pub fn all_is_answered_at_the_end()
    ensures { AllIsAnsweredAtTheEnd }
{}
