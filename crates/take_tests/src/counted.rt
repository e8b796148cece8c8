//! Whether the takes of a journal are counted with no gap.
ghost use Rattle.std.specs.Prelude.{◌≡◌, ◌<◌, ◌++◌, List, true, length, reverse, All, IsTrue};
ghost use Rattle.session_model.specs.declared.session.Session.{Session as Opened};
ghost use Rattle.engine_model.specs.Journal.{Entry as Seen};
ghost use Rattle.engine_model.specs.Fits.{take_number, take_after, last_take, greatest_take};
ghost use Rattle.cycle_journal.specs.JournalView.{seen_take, seen_entries};
ghost use Rattle.capture_flush.specs.Finished.{are_counted, goes_on as goes, IsCounted};

use cycle_journal::{Entry, Journal, Take};

fn number(take: Take) -> u32
    ensures { result ≡ take_number (seen_take take) }
{
    match take {
        Take::Off => 0,
        Take::Taken { take, .. } | Take::Lost { take, .. } => take,
    }
}

// The take and the index that follow, where no take so far is greater than `most`.
fn next(last: Take, most: u32) -> (u64, u64)
    ensures { result ≡ take_after (seen_take last) most }
{
    match last {
        Take::Off => (u64::from(most) + 1, 0),
        Take::Taken { take, index } | Take::Lost { take, index, .. } => {
            (u64::from(take), u64::from(index) + 1)
        }
    }
}

fn goes_on(last: Take, most: u32, take: Take) -> bool
    ensures { result ≡ goes (take_after (seen_take last) most) (seen_take take) }
{
    let (number, at) = next(last, most);
    match take {
        Take::Off => true,
        Take::Taken { take, index } | Take::Lost { take, index, .. } => {
            u64::from(take) == number && u64::from(index) == at
        }
    }
}

// Whether the entries go on, where the one before them took `last`.
fn go_on(entries: &[Entry], track: usize, last: Take, most: u32) -> bool
    requires { All (λ e. track < length e.notes.items) entries.now }
    ensures { IsTrue result → (before : List Seen) → seen_take last ≡ last_take track before
        → most ≡ greatest_take track before → are_counted track before ≡ true
        → are_counted track (reverse (seen_entries entries.now) ++ before) ≡ true }
{
    let [e, rest @ ..] = entries else {
        return true;
    };
    let take = e.notes.as_slice()[track].take;
    goes_on(last, most, take) && go_on(rest, track, take, number(take).max(most))
}

// Whether each entry has so many notes.
fn have_notes(entries: &[Entry], tracks: usize) -> bool
    ensures { IsTrue result → All (λ e. length e.notes.items ≡ tracks) entries.now }
{
    entries.iter().all(|e| e.notes.len() == tracks)
}

/// Whether the takes of a journal are counted, where there are so many tracks.
pub(crate) fn is_counted(journal: &Journal, tracks: usize) -> bool
    ensures { IsTrue result → (s : Opened) → length s.tracks.items ≡ tracks
        → IsCounted s (seen_entries journal.now.items) }
{
    let entries = journal.entries();
    if !have_notes(entries, tracks) {
        return false;
    }
    for track in 0..tracks {
        if !go_on(entries, track, Take::Off, 0) {
            return false;
        }
    }
    true
}
