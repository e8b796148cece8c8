//! The numbers that are kept of a track: what was heard of it, and how its takes are counted.
ghost use Rattle.std.specs.Prelude.{◌≡◌, ◌+◌, ◌≤◌, max};
ghost use Rattle.engine_model.specs.Fits.{fits_take};
ghost use Rattle.cycle_journal.specs.JournalView.{seen_note, seen_take};
ghost use Rattle.journal_judge.specs.Counts.{no_count, count_after, note_after};

use crate::plays::greatest;
use cycle_journal::{Note, Take};

/// The greatest take of a track so far, and the block that follows, if one does: a take goes on from one entry to the
/// next, else a new one begins. Takes count from 1, the blocks of a take from 0.
#[derive(Clone, Copy)]
pub(crate) struct TakeCount {
    pub(crate) greatest: u32,
    pub(crate) take: u32,
    pub(crate) index: u32,
}

/// The greatest playlist edition that was heard of a track, 0 before the first, and its takes.
#[derive(Clone, Copy)]
pub(crate) struct TrackCount {
    pub(crate) heard: u32,
    pub(crate) takes: TakeCount,
}

impl TakeCount {
    /// Whether an entry says what follows: nothing where the track isn't recorded, else this block.
    pub(crate) fn fits(self, recorded: bool, take: Take) -> bool
        ensures { result ≡ fits_take recorded (self.take, self.index) (seen_take take) }
    {
        match take {
            Take::Off => !recorded,
            Take::Taken { take, index } | Take::Lost { take, index, .. } => {
                recorded && take == self.take && index == self.index
            }
        }
    }

    // The count behind an entry that fits.
    fn after(self, take: Take) -> TakeCount
        requires few { self.greatest ≤ 100000 }
        requires few_blocks { self.index ≤ 100000 }
        ensures { result ≡ count_after self (seen_take take) }
    {
        match take {
            Take::Off => TakeCount {
                greatest: self.greatest,
                take: self.greatest + 1,
                index: 0,
            },
            Take::Taken { .. } | Take::Lost { .. } => TakeCount {
                greatest: self.greatest.max(self.take),
                take: self.take,
                index: self.index + 1,
            },
        }
    }
}

impl TrackCount {
    /// A track of which nothing was heard or taken yet.
    pub(crate) fn first() -> TrackCount
        ensures { result ≡ no_count }
    {
        TrackCount {
            heard: 0,
            takes: TakeCount {
                greatest: 0,
                take: 1,
                index: 0,
            },
        }
    }

    /// The numbers behind an entry whose note fits.
    pub(crate) fn after(self, note: &Note) -> TrackCount
        requires few { self.takes.greatest ≤ 100000 }
        requires few_blocks { self.takes.index ≤ 100000 }
        ensures { result ≡ note_after self (seen_note note.now) }
    {
        TrackCount {
            heard: greatest(self.heard, note.play),
            takes: self.takes.after(note.take),
        }
    }
}
