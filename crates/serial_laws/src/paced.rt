//! The plain walk over the lines of a run without letters, as far as it has come.
ghost use Rattle.serial_laws.specs.Paced.{NothingIsPacedAtFirst, EachLineIsPaced, EachEntryIsPaced, ItIsPacedStill, AllIsPacedAtTheEnd};

/// Before the first line there is no entry and no reply.
pub fn nothing_is_paced_at_first()
    ensures { NothingIsPacedAtFirst }
{}

/// A letter of control keeps it, by the lines that it takes.
pub fn each_line_is_paced()
    ensures { EachLineIsPaced }
{}

/// An entry in the newest edition keeps it, while a cycle is next.
pub fn each_entry_is_paced()
    ensures { EachEntryIsPaced }
{}

/// It goes by edits and entries, and stands where no further cycle can run.
pub fn it_is_paced_still()
    ensures { ItIsPacedStill }
{}

/// Once control has ended and no further cycle runs, entries and replies are by the walk.
pub fn all_is_paced_at_the_end()
    ensures { AllIsPacedAtTheEnd }
{}
