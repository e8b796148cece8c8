//! The laws of what is heard, from a lawful journal alone.

ghost use Rattle.journal_laws.specs.Acknowledged.{AfterAnAcknowledgement};
ghost use Rattle.journal_laws.specs.Blocks.{BlocksCountUp};
ghost use Rattle.journal_laws.specs.NeverBack.{EachPlaysItsGeneration, NothingGoesBack};

/// Once an entry has an edition settled, it and every entry after it play nothing older.
pub fn after_an_acknowledgement()
    ensures { AfterAnAcknowledgement }
{}

/// The blocks of a generation are played from 0 up, none left out, repeated or out of turn.
pub fn blocks_count_up()
    ensures { BlocksCountUp }
{}

/// No entry is newer than one that comes after it: neither its edition nor what it settled, nor what it heard of a track.
pub fn nothing_goes_back()
    ensures { NothingGoesBack }
{}

/// An entry that rolls plays in the generation of its own edition.
pub fn each_plays_its_generation()
    ensures { EachPlaysItsGeneration }
{}
