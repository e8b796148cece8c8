//! The laws of editions, generations and places.

ghost use Rattle.engine_laws.specs.EditionLaws.{PlaylistEditionsNameEdits, NoneFalls, EditionsStay, PlacesStay, LoopsAreKept, EditionsPlayTheirGeneration};

/// A playlist edition is the number of an edit that stands, and it is its own playlist edition.
pub fn playlist_editions_name_edits()
    ensures { PlaylistEditionsNameEdits }
{}

/// Playlist editions and generations never fall along the edits.
pub fn none_falls()
    ensures { NoneFalls }
{}

/// What the first edits say stays as it is when more edits come: playlist editions, the generation, whether there was
/// a quit, and the whole state.
pub fn editions_stay()
    ensures { EditionsStay }
{}

/// The places of a generation that was started stay as they are when more edits come.
#[tactic(auto, using(crate::proofs::PlaceLemmas::place_stays))]
pub fn places_stay()
    ensures { PlacesStay }
{}

/// A generation that starts before the end of its loop never leaves the loop once it has come to its end.
#[tactic(auto, using(crate::proofs::PlaceLemmas::lies_in_loop))]
pub fn loops_are_kept()
    ensures { LoopsAreKept }
{}

/// The transport of an edition plays the places of the edition's generation, and has quit exactly where an edit said so.
#[tactic(auto, using(crate::proofs::Laws::editions_play_their_generation))]
pub fn editions_play_their_generation()
    ensures { EditionsPlayTheirGeneration }
{}
