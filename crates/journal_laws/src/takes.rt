//! The laws of takes: which entries a take has, and what it holds.

ghost use Rattle.journal_laws.specs.TakeRuns.{TakesAreRuns};
ghost use Rattle.journal_laws.specs.TakeSounds.{ATakeHoldsItsInput};

/// The takes of a track are the runs of entries in which it is recorded, numbered from 1 with no gap.
pub fn takes_are_runs()
    ensures { TakesAreRuns }
{}

/// A take holds the input of its run, frame by frame, and zeros for the blocks that were lost.
pub fn a_take_holds_its_input()
    ensures { ATakeHoldsItsInput }
{}
