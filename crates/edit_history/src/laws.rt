//! The laws of a history of edits.
ghost use Rattle.edit_history.specs.Laws.{EachChangeMakesTheNextEdition, EachChangeIsOfTheTouchedPlaylist};

/// Each edit makes the next edition of the one before it, by its change.
pub fn each_change_makes_the_next_edition()
    ensures { EachChangeMakesTheNextEdition }
{}

/// An edit is a command on the playlist of a track exactly where its change is of that playlist, and only there the track
/// has a new playlist edition.
pub fn each_change_is_of_the_touched_playlist()
    ensures { EachChangeIsOfTheTouchedPlaylist }
{}
