//! What is left of a play in which a worker wanted memory: all is given back, and nothing more is written.
ghost use Rattle.std.specs.Prelude.{◌≡◌, ◌≤◌, [], length};
ghost use Rattle.disk_ring.specs.Rings.{joined_of};
ghost use Rattle.process_ends.specs.Ends.{AreOtherEnds};
ghost use Rattle.run_end.specs.Lists.{HaveRoomFor};

use butler::ButlerParts;
use edition_log::Edition;
use run_end::{Failures, RunEnd, RunLists};
use run_rings::{JoinedRings, join_ends};
use ses_io::Media;
use session_model::EditList;
use worker_pair::{Ending, Stopped};

// Notes the edits of an edition in an empty list.
fn note_edits(edits: &mut EditList, edition: &Edition)
    requires none { edits.old.items ≡ [] }
    requires room { 10000 ≤ edits.old.room }
    ensures { edits.new.items ≡ edition.now.edits }
{
    let accepted = edition.edits().as_slice();
    for k in 0..edition.number() {
        edits.push(accepted[k as usize]);
    }
}

/// Gives all back, with the rings joined. The takes aren't made whole: their files have all blocks that were flushed, and a head
/// that tells of about all of them.
pub(crate) fn give_up<M: Media, I, W>(
    ending: Ending<M>,
    stopped: Stopped<I, W>,
    failed: Failures,
    lists: RunLists,
) -> RunEnd<M, I, W>
    requires others { AreOtherEnds ending.ends ending.butler.ends }
    requires room { length ending.butler.ends.sends.items ≤ lists.rings.room }
    requires none { lists.rings.items ≡ [] }
    requires tracks { length ending.ends.takes.items ≡ length ending.butler.ends.sends.items }
    requires control { stopped.acks.ring ≡ ending.ends.to_control.ring }
    requires edits { lists.edits.items ≡ [] }
    requires edits_room { 10000 ≤ lists.edits.room }
    ensures media { result.media ≡ ending.butler.media }
    ensures input { result.input ≡ stopped.input }
    ensures master { result.master ≡ stopped.master }
    ensures journal { result.journal ≡ stopped.journal }
    ensures failed { result.failed ≡ failed }
    ensures edits { result.edits.items ≡ ending.edition.edits }
    ensures acks { result.acks ≡ joined_of ending.ends.to_control stopped.acks }
{
    let Ending {
        edition,
        butler,
        ends,
    } = ending;
    let Stopped {
        input,
        master,
        journal,
        acks,
    } = stopped;
    let RunLists { rings, mut edits } = lists;
    note_edits(&mut edits, &edition);
    let ButlerParts {
        media,
        files: _,
        ends: theirs,
    } = butler.parts();
    let JoinedRings { tracks, acks } = join_ends(rings, ends, theirs, acks);
    RunEnd {
        media,
        input,
        master,
        journal,
        edits,
        rings: tracks,
        acks,
        failed,
    }
}
