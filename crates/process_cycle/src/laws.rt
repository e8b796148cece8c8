//! What follows of what a process promises, as functions that do nothing and whose contracts are
//! the laws.
ghost use Rattle.process_cycle.specs.Laws.{PromisesAreTruthful, PromisesAreCounted, ToldIsSettled};

/// The journal is truthful of each track's two rings: each piece that wasn't there, and each lost
/// block.
pub fn promises_are_truthful()
    ensures { PromisesAreTruthful }
{}

/// The takes of the journal are counted with no gap.
pub fn promises_are_counted()
    ensures { PromisesAreCounted }
{}

/// Each acknowledgement that was put names its entry, and what that has settled.
pub fn told_is_settled()
    ensures { ToldIsSettled }
{}
