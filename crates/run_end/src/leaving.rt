//! What a run leaves, from the end of its process on.
ghost use Rattle.std.specs.Prelude.{◌≡◌};
ghost use Rattle.audio_source.specs.Told.{source_sound};
ghost use Rattle.cycle_journal.specs.JournalView.{seen_entries};
ghost use Rattle.run_end.specs.AtRest.{ProcessHasEnded};
ghost use Rattle.run_end.specs.Left.{IsLeftByTurns, IsLeftOver, MediaIsCounted};
ghost use Rattle.run_end.specs.Lists.{HaveRoomFor};
ghost use Rattle.run_end.specs.Passed.{AllGenuine, RingsAreLeft};
ghost use Rattle.run_end.specs.Started.{Started};
ghost use Rattle.run_end.specs.Takes.{LeavesTakes};

use crate::draining::drain;
use crate::failures::Failures;
use crate::lists::RunLists;
use crate::parting::{RunEnd, part};
use ses_io::{Media, Sink, Source};
use worker_pair::{Ending, Stopped};

/// A run whose process has ended and whose butler has nothing left to do.
pub(crate) struct AtRest<M: Media, I, W> {
    pub(crate) ending: Ending<M>,
    pub(crate) stopped: Stopped<I, W>,
    pub(crate) failed: Failures,
}

/// Once the process has ended, whatever has failed: the butler makes turns until one is Idle, the takes are made whole, and the rings are
/// joined again. `records` says whether tracks could be recorded. It takes no memory.
pub fn leave<M: Media, I: Source, W: Sink>(
    ending: Ending<M>,
    stopped: Stopped<I, W>,
    failed: Failures,
    lists: RunLists,
    records: bool,
) -> RunEnd<M, I, W>
    ghost on: { Started M I W }
    requires ended { ProcessHasEnded M.outside I.outside on ending stopped failed }
    requires lists { HaveRoomFor on.begun.session lists }
    requires records { records ≡ on.begun.records }
    ensures over { IsLeftOver ending stopped failed result }
    ensures counts { MediaIsCounted M.outside on result }
    ensures takes { LeavesTakes M.outside I.outside on result }
    ensures rings { RingsAreLeft on.begun.session result.edits.items
        (seen_entries result.journal.items) result.failed result.rings.items result.acks }
    ensures genuine { M.outside.tells → AllGenuine (source_sound on.begun.files on.opened)
        on.begun.session result.edits.items result.rings.items }
    ensures turns { IsLeftByTurns M.outside on ending failed result }
{
    let (ending, failed) = drain::<M, I, W>(ending, failed);
    let rest = AtRest {
        ending,
        stopped,
        failed,
    };
    part(rest, lists, records)
}
