//! What follows of it, as functions that do nothing and whose contracts are the laws.
ghost use Rattle.cycle_grants.specs.Allowed.{AllowancesAreKept, AnEntryFollows};
ghost use Rattle.cycle_grants.specs.Allowed.{AwaitingKeepsAllowances, NoEntryIsAllowedYet};
ghost use Rattle.cycle_grants.specs.Granting.{GrantsAreAsked, PacesGoOn, TheLastGrantIsFull};
ghost use Rattle.cycle_grants.specs.Patience.{FurtherLooks, LookedStands, OneMoreIsLookedFor};
ghost use Rattle.cycle_grants.specs.Patience.{WaitedForStands, WaitedForWithItsEntry};

/// A process that made no entry yet has kept its allowances.
#[tactic(auto, using(crate::proofs::AllowedLemmas::no_entry_is_allowed_yet))]
pub fn no_entry_is_allowed_yet()
    ensures { NoEntryIsAllowedYet }
{}

/// Waiting for an allowance keeps them, and leaves the process free to make its cycle.
pub fn awaiting_keeps_allowances()
    ensures { AwaitingKeepsAllowances }
{}

/// An entry may follow in an edition no older than that of any grant.
#[tactic(auto, using(crate::proofs::AllowedLemmas::an_entry_follows))]
pub fn an_entry_follows()
    ensures { AnEntryFollows }
{}

/// A journal so made keeps the allowances, whatever was sent behind what was received.
#[tactic(auto, using(crate::proofs::AllowedLemmas::allowances_are_kept))]
pub fn allowances_are_kept()
    ensures { AllowancesAreKept }
{}

/// Control's grants are those that its lines ask for, line by line.
#[tactic(auto, using(crate::proofs::GrantingLemmas::grants_are_asked))]
pub fn grants_are_asked()
    ensures { GrantsAreAsked }
{}

/// One line more asks for its own.
#[tactic(auto, using(crate::proofs::PaceLemmas::paces_go_on))]
pub fn paces_go_on()
    ensures { PacesGoOn }
{}

/// A ring that took 2^62 grants is full.
#[tactic(auto, using(crate::proofs::FullLemmas::the_last_grant_is_full))]
pub fn the_last_grant_is_full()
    ensures { TheLastGrantIsFull }
{}

/// What was looked for with patience stays so when further looks are made.
#[tactic(auto, using(crate::proofs::PatienceLemmas::further_looks))]
pub fn further_looks()
    ensures { FurtherLooks }
{}

/// One more number is looked for by so many looks of its own, of which the last one noted it.
#[tactic(auto, using(crate::proofs::PatienceLemmas::one_more_is_looked_for))]
pub fn one_more_is_looked_for()
    ensures { OneMoreIsLookedFor }
{}

/// What was looked for stands as edits come and more is received.
#[tactic(auto, using(crate::proofs::PatienceLemmas::looked_stands))]
pub fn looked_stands()
    ensures { LookedStands }
{}

/// The pieces that weren't there stay looked for with patience as edits come, and more is received and looked for.
#[tactic(auto, using(crate::proofs::WaitedLemmas::waited_for_stands))]
pub fn waited_for_stands()
    ensures { WaitedForStands }
{}

/// So they are with the entry of a cycle whose looks were made with patience.
#[tactic(auto, using(crate::proofs::WaitedLemmas::waited_for_with_its_entry))]
pub fn waited_for_with_its_entry()
    ensures { WaitedForWithItsEntry }
{}
