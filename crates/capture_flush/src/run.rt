//! A take as a journal counts it: how many blocks it has, and up to which one they came.
ghost use Rattle.std.specs.Prelude.{◌≡◌, ◌-◌, ◌<◌, ◌^◌};
ghost use Rattle.std.specs.Option.{option_map_or};
ghost use Rattle.cycle_journal.specs.JournalView.{seen_take};
ghost use Rattle.capture_flush.specs.Closing.{open_after};

use cycle_journal::Take;

/// A take of a track.
#[derive(Clone, Copy)]
pub(crate) struct Run {
    /// The take's number, from 1.
    pub take: u32,
    /// How many entries recorded it, so many blocks it has.
    pub blocks: u32,
    /// How many of these its file has before it is closed: as far as the last that wasn't lost.
    pub filled: u32,
}

/// The take that is open after one more note, where this one was open before it.
pub(crate) fn open_after(before: Option<Run>, take: Take) -> Option<Run>
    requires { option_map_or (λ r. r.blocks) before 0 < 2 ^ 32 - 1 }
    ensures { result ≡ open_after before (seen_take take) }
{
    let (blocks, filled) = match before {
        Some(run) => (run.blocks, run.filled),
        None => (0, 0),
    };
    match take {
        Take::Off => None,
        Take::Taken { take, .. } => Some(Run {
            take,
            blocks: blocks + 1,
            filled: blocks + 1,
        }),
        Take::Lost { take, .. } => Some(Run {
            take,
            blocks: blocks + 1,
            filled,
        }),
    }
}
