//! A run with its control, and what control sees of it.
ghost use Rattle.std.specs.Prelude.{◌≡◌, ◌≤◌};
ghost use Rattle.run_end.specs.Started.{Started};
ghost use Rattle.engine_core.specs.UnderWay.{IsUnderWay};
ghost use Rattle.std.specs.Prelude.{reverse};
ghost use Rattle.cycle_journal.specs.JournalView.{seen_entries};
ghost use Rattle.control_desk.specs.Seen.{last_settled};
ghost use Rattle.engine_core.specs.Shows.{shows};

use crate::run::Run;
use control_desk::{Control, Progress};
use cycle_journal::Entry;
use ses_io::{Media, Sink, Source};

/// A run on one thread, and its control.
pub struct Engine<M: Media, I: Source, C: Source, W: Sink, O: Sink> {
    pub run: Run<M, I, W>,
    pub control: Control<C, O>,
}

// The edition that the last entry has settled.
fn last_settled(entries: &[Entry]) -> Option<u32>
    ensures { result ≡ last_settled (reverse (seen_entries entries.now)) }
{
    match entries.last() {
        Some(entry) => Some(entry.settled),
        None => None,
    }
}

/// What control sees of a run: how many edits were accepted, how many entries were made, what the
/// last one has settled, and whether no further cycle can run.
pub fn progress<M: Media, I: Source, W: Sink>(run: &Run<M, I, W>) -> Progress
    ghost on: { Started M I W }
    requires { IsUnderWay M.outside I.outside W.outside on run.now }
    ensures shows { result ≡ shows run.now }
    ensures few { result.entries ≤ 100000 }
{
    let entries = run.pair.process.journal().entries();
    Progress {
        edits: run.pair.edition.number(),
        entries: entries.len() as u32,
        settled: last_settled(entries),
        played_out: run.is_played_out(),
    }
}
