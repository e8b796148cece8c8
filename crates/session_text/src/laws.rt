//! What holds of every session that is read, and of its text.
ghost use Rattle.session_text.specs.Laws.{ReadSessionsStay, MigratedSoundsTheSame};

/// A session that is read has the rooms that reading gives its lists: it is the same as read.
#[tactic(auto, using(crate::proofs::SessionLaws::read_sessions_stay))]
pub fn read_sessions_stay()
    ensures { ReadSessionsStay }
{}

/// A session that is read of another's text sounds as that one does, at every position.
#[tactic(auto, using(crate::proofs::SoundLaws::migrated_sounds_the_same))]
pub fn migrated_sounds_the_same()
    ensures { MigratedSoundsTheSame }
{}
