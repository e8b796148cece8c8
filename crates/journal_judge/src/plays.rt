//! What an entry says to be heard of a track.
ghost use Rattle.std.specs.Prelude.{◌≡◌, ◌+◌, ◌≤◌, max};
ghost use Rattle.engine_model.specs.Fits.{fits_play};
ghost use Rattle.session_change.specs.Change.{change_seen};
ghost use Rattle.cycle_journal.specs.JournalView.{seen_play};
ghost use Rattle.journal_judge.specs.Deciding.{is_of, is_well_heard, names_change};
ghost use Rattle.journal_judge.specs.Counts.{heard_number};

use cycle_journal::Play;
use edit_history::EditHistory;
use session_change::Change;

/// Whether it fits a cycle that rolls or not, behind so many blocks of its generation.
pub(crate) fn fits(rolling: bool, rolled: u32, play: Play) -> bool
    ensures { result ≡ fits_play rolling rolled (seen_play play) }
{
    match play {
        Play::Silent => !rolling,
        Play::Heard(_) => rolling,
        Play::Short(_) => rolling && 0 < rolled,
    }
}

// Whether a change is of the playlist of a track.
fn is_of(track: u32, change: &Change) -> bool
    ensures { result ≡ is_of track (change_seen change.now) }
{
    match change.track() {
        Some(own) => own == track,
        None => false,
    }
}

// Whether it is a playlist edition of a track: 0, or the number of an edit of its playlist.
fn names_change(history: &EditHistory, track: u32, number: u32) -> bool
    ensures { result ≡ names_change history.now.changes track number }
{
    if number == 0 {
        return true;
    }
    match history.changes().get(number as usize - 1) {
        Some(change) => is_of(track, change),
        None => false,
    }
}

/// Whether what is heard is a playlist edition of the track, none older than the settled edition has, and than what was
/// heard before.
pub(crate) fn is_well_heard(
    history: &EditHistory,
    track: u32,
    floor: u32,
    heard: u32,
    play: Play,
) -> bool
    ensures { result
        ≡ is_well_heard history.now.changes track floor heard (seen_play play) }
{
    match play {
        Play::Silent | Play::Short(_) => true,
        Play::Heard(number) => {
            names_change(history, track, number) && floor <= number && heard <= number
        }
    }
}

/// The greatest that was heard of a track, with what an entry says.
pub(crate) fn greatest(heard: u32, play: Play) -> u32
    ensures { result ≡ max (heard_number (seen_play play)) heard }
{
    match play {
        Play::Silent | Play::Short(_) => heard,
        Play::Heard(number) => number.max(heard),
    }
}
