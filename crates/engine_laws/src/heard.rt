//! The laws of what is heard: never older than what is settled, and never older than before.

ghost use Rattle.engine_laws.specs.HeardLaws.{HeardIsSettled, HeardNamesAnEdition, ForceNeverFalls, HeardNeverFalls, OldEntriesStand, NextIsNoOlder};

/// After a mark in force no older piece is heard.
#[tactic(auto, using(crate::proofs::SettledLemmas::heard_high))]
pub fn heard_is_settled()
    ensures { HeardIsSettled }
{}

/// What is heard is an edition of the track's playlist.
#[tactic(auto, using(crate::proofs::OlderLemmas::newest_names))]
pub fn heard_names_an_edition()
    ensures { HeardNamesAnEdition }
{}

/// The greatest mark in force never falls while more is received and the place goes on.
#[tactic(auto, using(crate::proofs::Laws::force_never_falls))]
pub fn force_never_falls()
    ensures { ForceNeverFalls }
{}

/// What is heard is never older than what was heard before.
#[tactic(auto, using(crate::proofs::OlderLemmas::heard_rises))]
pub fn heard_never_falls()
    ensures { HeardNeverFalls }
{}

/// What stands of an old entry stands when more is received.
pub fn old_entries_stand()
    ensures { OldEntriesStand }
{}

/// Neither the settled number nor what is heard of the next entry is older than an old entry's.
pub fn next_is_no_older()
    ensures { NextIsNoOlder }
{}
