//! What holds of each session that is opened, and of each source that is refused.
ghost use Rattle.session_opening.specs.Laws.{OpenIsValid, RefusedIsFirst};

/// A session that is opened is valid, and the file of each source has a head of the session's rate and the source's
/// channels.
pub fn open_is_valid()
    ensures { OpenIsValid }
{}

/// A source is refused only of a session that is valid, and it is the first whose file isn't opened.
#[tactic(auto, using(crate::proofs::PlanLaws::refused_is_first))]
pub fn refused_is_first()
    ensures { RefusedIsFirst }
{}
