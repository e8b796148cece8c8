//! The laws of runs on one thread: an edit is heard from the very next cycle on.

ghost use Rattle.journal_laws.specs.OneThread.{EachEntryHearsItsEdition, AnEditIsInTheNextCycle, TheNextCycleHasAllEdits};

/// Each entry is settled in its own edition, and hears of each track the playlist of that edition.
pub fn each_entry_hears_its_edition()
    ensures { EachEntryHearsItsEdition }
{}

/// Every entry made after an accepted edit is in the edition that it made, or a later one.
pub fn an_edit_is_in_the_next_cycle()
    ensures { AnEditIsInTheNextCycle }
{}

/// The next entry is in the edition of all edits accepted so far.
pub fn the_next_cycle_has_all_edits()
    ensures { TheNextCycleHasAllEdits }
{}
