//! Blocks of one capture ring go into the take files: one block, or as many as there are.
ghost use Rattle.std.specs.Prelude.{◌≡◌, ◌+◌, set, length, is_err, IfOk, IfErr};
ghost use Rattle.capture_flush.specs.Taking.{IsTakingOf};
ghost use Rattle.capture_flush.specs.Flushed.{IsFlushed};
ghost use Rattle.capture_drain.specs.Drains.{Drains};
ghost use Rattle.capture_drain.specs.State.{Fits};
ghost use Rattle.capture_drain.specs.Files.{tape_of, NotesFault, WritesTakes};
ghost use Rattle.capture_drain.specs.OneRing.{Standing, IsRingOf, HasTaken, HasDrained, HasStopped};

use crate::track::TrackDrain;
use capture_flush::{TakeFiles, WriteFault};
use disk_ring::{Nothing, RingOut};
use piece_item::TakeBlock;
use ses_io::Media;

// Takes the next block of a ring, if there is one, and gives it to the take files. Answers whether there was one.
fn drain_one<M: Media>(
    files: &mut TakeFiles,
    kept: &mut TrackDrain,
    media: &mut M,
    track: u32,
    ring: &mut RingOut<TakeBlock>,
) -> Result<bool, WriteFault>
    ghost at: { Standing }
    requires of { IsTakingOf at.run.session files.old }
    requires ring { IsRingOf at track kept.old ring.old }
    ensures ring { Drains ring.old ring.new }
    ensures answer { IfOk result (HasTaken ring.old ring.new) }
    ensures cut { IfErr result
        (λ fault. length ring.new.received ≡ length ring.old.received + 1) }
    ensures given { M.outside.tells
        → IsFlushed (tape_of at.run at.rings) files.old (M.outside.files media.old)
        → IsFlushed (tape_of at.run (set at.rings track ring.new)) files.new
        (M.outside.files media.new) }
    ensures failed { NotesFault (is_err result) files.old files.new }
    ensures fits { Fits kept.new ring.new }
    ensures of { IsTakingOf at.run.session files.new }
    ensures media { WritesTakes M.outside at.run.session at.rings (set at.rings track ring.new)
        media.old media.new result }
{
    if ring.is_empty() {
        return Ok(false);
    }
    let Some(husk) = kept.husk.take() else {
        unreachable!()
    };
    match ring.take(husk) {
        Ok(block) => {
            let answer = files.block(media, track, &block);
            kept.husk = Some(block);
            answer?;
            Ok(true)
        }
        Err(Nothing::Empty { husk, tail: _ }) => {
            kept.husk = Some(husk);
            Ok(false)
        }
        Err(Nothing::Closed { husk, tail: _ }) => {
            kept.husk = Some(husk);
            kept.ended = true;
            Ok(false)
        }
    }
}

/// Takes blocks out of a ring until nothing more is there, but at most so many, and gives each to the take files.
/// Answers how many it took.
pub(crate) fn drain_ring<M: Media>(
    files: &mut TakeFiles,
    kept: &mut TrackDrain,
    media: &mut M,
    track: u32,
    ring: &mut RingOut<TakeBlock>,
    most: u32,
) -> Result<u32, WriteFault>
    ghost at: { Standing }
    requires of { IsTakingOf at.run.session files.old }
    requires ring { IsRingOf at track kept.old ring.old }
    ensures ring { Drains ring.old ring.new }
    ensures answer { IfOk result (HasDrained most ring.old ring.new) }
    ensures cut { IfErr result (λ fault. HasStopped most ring.old ring.new) }
    ensures given { M.outside.tells
        → IsFlushed (tape_of at.run at.rings) files.old (M.outside.files media.old)
        → IsFlushed (tape_of at.run (set at.rings track ring.new)) files.new
        (M.outside.files media.new) }
    ensures failed { NotesFault (is_err result) files.old files.new }
    ensures fits { Fits kept.new ring.new }
    ensures of { IsTakingOf at.run.session files.new }
    ensures media { WritesTakes M.outside at.run.session at.rings (set at.rings track ring.new)
        media.old media.new result }
{
    for taken in 0..most {
        if !drain_one(files, kept, media, track, ring)? {
            return Ok(taken);
        }
    }
    Ok(most)
}
