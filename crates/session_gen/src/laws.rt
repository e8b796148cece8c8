//! What holds of the text of every made session.
ghost use Rattle.session_gen.specs.Laws.{MadeSessionsStay};

/// A made session has the rooms that reading gives its lists: its text is read as it.
#[tactic(auto, using(crate::proofs::MadeLemmas::made_sessions_stay))]
pub(crate) fn made_sessions_stay()
    ensures { MadeSessionsStay }
{}
