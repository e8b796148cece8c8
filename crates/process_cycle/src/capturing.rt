//! The tracks are captured in order, and what a cycle took of each is noted.
ghost use Rattle.std.specs.Prelude.{◌≡◌, ℕ, ◌*◌, ◌<◌, ◌≤◌, List, length, slice_get, Some};
ghost use Rattle.session_model.specs.Valid.{IsValid};
ghost use Rattle.engine_model.specs.Journal as journal;
ghost use Rattle.disk_ring.specs.Sender.{Sender};
ghost use Rattle.piece_item.specs.declared.take_block.TakeBlock.{TakeBlock as TakeBlockRecord};
ghost use Rattle.cycle_journal.specs.declared.note.Note.{Note as NoteRecord};
ghost use Rattle.track_capture.specs.declared.capture.TrackCapture.{TrackCapture as TrackCaptureRecord};
ghost use Rattle.track_capture.specs.Counted.{Counts, FitsRing};
ghost use Rattle.process_ends.specs.Ends.{block_of};
ghost use Rattle.process_cycle.specs.Cycles.{Captures};

use cycle_journal::Note;
use disk_ring::RingIn;
use edition_log::Edition;
use piece_item::TakeBlock;
use track_capture::{TrackCapture, records};

/// Captures each track that an edition records while it rolls, of a block of the input with so many
/// channels, and notes what was taken. It takes no memory.
pub(crate) fn capture_all(
    e: &Edition,
    rolls: bool,
    channels: u16,
    input: &[i32],
    captures: &mut [TrackCapture],
    rings: &mut [RingIn<TakeBlock>],
    notes: &mut [Note],
)
    ghost before: { List journal.Entry }
    requires tracks { length captures.old ≡ length e.now.session.tracks.items }
    requires rings { length rings.old ≡ length captures.old }
    requires notes { length notes.old ≡ length captures.old }
    requires few { length before ≤ 100000 }
    requires input { length input.now ≡ e.now.session.block * channels }
    requires counts { (t : ℕ) (k : TrackCaptureRecord) → slice_get captures.old t ≡ Some k
        → Counts before t k }
    requires fits { (t : ℕ) (k : TrackCaptureRecord) (d : Sender TakeBlockRecord)
        → slice_get captures.old t ≡ Some k → slice_get rings.old t ≡ Some d
        → FitsRing (block_of e.now.session t) k d }
    ensures captured { (t : ℕ) (k : TrackCaptureRecord) (was noted : NoteRecord)
        (d f : Sender TakeBlockRecord) → slice_get captures.new t ≡ Some k
        → slice_get notes.old t ≡ Some was → slice_get notes.new t ≡ Some noted
        → slice_get rings.old t ≡ Some d → slice_get rings.new t ≡ Some f
        → Captures e.now rolls before t channels input.now was noted d f k }
{
    let session = e.session();
    for t in 0..captures.len() {
        let track = t as u32;
        let recorded = rolls && records(e, track);
        notes[t].take = captures[t].capture(
            session,
            track,
            recorded,
            channels,
            input,
            &mut rings[t],
        );
    }
}
