//! What holds of every session and every playlist: the tests that compute are the facts.
ghost use Rattle.session_model.specs.Laws.{FormIsTested, ValidityIsTested, PlaylistsAreInOrder};

/// The test `is_formed` passes exactly the formed sessions.
#[tactic(auto, using(crate::proofs::ValidityLaws::form_is_tested))]
pub fn form_is_tested()
    ensures { FormIsTested }
{}

/// The test `is_valid` passes exactly the valid sessions.
#[tactic(auto, using(crate::proofs::ValidityLaws::validity_is_tested))]
pub fn validity_is_tested()
    ensures { ValidityIsTested }
{}

/// The sound of a playlist is laid in the order in which its regions stand.
#[tactic(auto, using(crate::proofs::PlaylistLemmas::playlists_are_in_order))]
pub fn playlists_are_in_order()
    ensures { PlaylistsAreInOrder }
{}
