//! What a run leaves: the takes are made whole, and the rings are joined again.
ghost use Rattle.std.specs.Prelude.{◌≡◌, ◌≤◌, true, false};
ghost use Rattle.cycle_journal.specs.JournalView.{seen_entries};
ghost use Rattle.capture_flush.specs.Finished.{IsCounted, Recorded};
ghost use Rattle.capture_flush.specs.Taking.{IsTakingOf};
ghost use Rattle.run_end.specs.Parted.{FinishesTakes, HasFlushedAll, IsParted, MayPart};

use crate::failures::Failures;
use crate::leaving::AtRest;
use crate::lists::{RunLists, copy_edits};
use butler::ButlerParts;
use capture_flush::TakeFiles;
use cycle_journal::Journal;
use disk_ring::Ring;
use piece_item::Ack;
use run_rings::{JoinedRings, RingsList, join_ends};
use ses_io::Media;
use session_model::EditList;
use worker_pair::{Ending, Stopped};

/// What a run leaves of what it was given, and what it made.
pub struct RunEnd<M, I, W> {
    pub media: M,
    pub input: I,
    pub master: W,
    pub journal: Journal,
    /// The accepted edits.
    pub edits: EditList,
    /// The rings of the tracks.
    pub rings: RingsList,
    /// The ring of acknowledgements to control.
    pub acks: Ring<Ack>,
    pub failed: Failures,
}

// Makes the takes whole, but those that have failed. Answers whether a write has failed by then.
fn finish_takes<M: Media>(media: &mut M, files: TakeFiles, journal: &Journal, failed: bool) -> bool
    ghost run: { Recorded }
    requires of { IsTakingOf run.session files }
    requires room { journal.now.room ≤ 100000 }
    requires counted { IsCounted run.session (seen_entries journal.now.items) }
    requires flushed { HasFlushedAll M.outside run (seen_entries journal.now.items) failed files
        media.old }
    ensures { FinishesTakes M.outside run (seen_entries journal.now.items) files failed media.old
        result media.new }
{
    // it has no more entries than it has room for
    let _made = journal.entries();
    let mut files = files;
    let fails = files.finish(media, journal).is_err();
    if failed {
        return true;
    }
    fails
}

/// Makes the takes whole where tracks were recorded, joins the rings again, and gives everything back.
pub(crate) fn part<M: Media, I, W>(
    rest: AtRest<M, I, W>,
    lists: RunLists,
    records: bool,
) -> RunEnd<M, I, W>
    ghost run: { Recorded }
    requires { MayPart M.outside run rest lists records }
    ensures { IsParted M.outside run records rest result }
{
    let AtRest {
        ending,
        stopped,
        mut failed,
    } = rest;
    let Ending {
        edition,
        butler,
        ends,
    } = ending;
    let Stopped {
        input,
        master,
        journal,
        acks,
    } = stopped;
    let RunLists { rings, mut edits } = lists;
    copy_edits(&mut edits, &edition);
    let ButlerParts {
        mut media,
        files,
        ends: theirs,
    } = butler.parts();
    if records {
        failed.write = finish_takes(&mut media, files, &journal, failed.write);
    }
    let JoinedRings { tracks, acks } = join_ends(rings, ends, theirs, acks);
    RunEnd {
        media,
        input,
        master,
        journal,
        edits,
        rings: tracks,
        acks,
        failed,
    }
}
