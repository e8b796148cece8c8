//! The laws of journals.

ghost use Rattle.engine_laws.specs.JournalLaws.{LawfulStays, PlainIsLawful, AcceptedIsAccepted};

/// A lawful journal stays lawful when more edits come.
#[tactic(auto, using(crate::proofs::Laws::journals_stay_lawful))]
pub fn lawful_stays()
    ensures { LawfulStays }
{}

/// The plain journal is lawful, for every session, number of cycles and list of commands.
#[tactic(auto, using(crate::proofs::Laws::plain_is_lawful))]
pub fn plain_is_lawful()
    ensures { PlainIsLawful }
{}

/// The edits that a plain run accepts are accepted one after another, and none stands after a quit.
#[tactic(auto, using(crate::proofs::Laws::accepted_is_accepted))]
pub fn accepted_is_accepted()
    ensures { AcceptedIsAccepted }
{}
