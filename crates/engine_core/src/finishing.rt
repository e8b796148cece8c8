//! A run on one thread ends.
ghost use Rattle.std.specs.Prelude.{◌≡◌};
ghost use Rattle.audio_source.specs.Told.{source_sound};
ghost use Rattle.cycle_journal.specs.JournalView.{seen_entries};
ghost use Rattle.run_end.specs.Lists.{HaveRoomFor};
ghost use Rattle.run_end.specs.Passed.{AllGenuine, RingsAreLeft};
ghost use Rattle.run_end.specs.Started.{Started};
ghost use Rattle.run_end.specs.Takes.{LeavesTakes};
ghost use Rattle.engine_core.specs.UnderWay.{IsUnderWay};
ghost use Rattle.engine_core.specs.Ended.{AllAreCounted, GivesBack};
ghost use Rattle.engine_core.specs.MachineEnds.{EndsAsMachine};

use crate::run::Run;
use run_end::{RunEnd, RunLists, leave};
use ses_io::{Media, Sink, Source};

/// Ends a run, whatever has failed in it: silence is written for the cycles that weren't made, the process ends, the butler takes
/// its last turns, and the takes are made whole, but those of which a write has failed. `records` says whether tracks could be
/// recorded. It takes no memory.
pub fn finish<M: Media, I: Source, W: Sink>(
    run: Run<M, I, W>,
    lists: RunLists,
    records: bool,
) -> RunEnd<M, I, W>
    ghost on: { Started M I W }
    requires under_way { IsUnderWay M.outside I.outside W.outside on run }
    requires lists { HaveRoomFor on.begun.session lists }
    requires records { records ≡ on.begun.records }
    ensures written { GivesBack M.outside I.outside W.outside on run result }
    ensures counts { AllAreCounted M.outside I.outside W.outside on run result }
    ensures takes { LeavesTakes M.outside I.outside on result }
    ensures rings { RingsAreLeft on.begun.session result.edits.items
        (seen_entries result.journal.items) result.failed result.rings.items result.acks }
    ensures genuine { M.outside.tells → AllGenuine (source_sound on.begun.files on.opened)
        on.begun.session result.edits.items result.rings.items }
    ensures as_machine { EndsAsMachine on.begun.session run result }
{
    let mut run = run;
    run.end();
    let Run { pair, failed } = run;
    let (ending, stopped) = pair.close();
    leave(ending, stopped, failed, lists, records)
}
