//! The laws of take files, as functions that do nothing and whose contracts are the laws.
ghost use Rattle.capture_flush.specs.Laws.{AHeadKeepsUp, ALawfulJournalIsCounted, AnEarlyEndIsInPart};

/// In a lawful journal the takes of each track are counted, and their blocks.
pub fn a_lawful_journal_is_counted()
    ensures { ALawfulJournalIsCounted }
{}

/// Where flushing ended early, each file has a front of its take from byte 44 on, and no other file changed.
pub fn an_early_end_is_in_part()
    ensures { AnEarlyEndIsInPart }
{}

/// At no time the head of a take's file tells of more blocks than stand there, and it lacks less than a second of them.
pub fn a_head_keeps_up()
    ensures { AHeadKeepsUp }
{}
