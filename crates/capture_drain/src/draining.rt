//! Blocks of capture rings go into the take files, ring by ring.
ghost use Rattle.std.specs.Prelude.{◌≡◌, ◌<◌, length, is_err, IfOk, IfErr};
ghost use Rattle.capture_flush.specs.Taking.{IsTakingOf};
ghost use Rattle.capture_flush.specs.Flushed.{IsFlushed};
ghost use Rattle.capture_drain.specs.Drains.{AllDrain, HaveDrained, HaveStopped};
ghost use Rattle.capture_drain.specs.State.{AreFitted};
ghost use Rattle.capture_drain.specs.Files.{RunStart, tape_of, NotesFault, WritesTakes};
ghost use Rattle.capture_drain.specs.OneRing.{Standing, IsOneDrained, HasOneTaken};

use crate::drain::CaptureDrain;
use crate::one_ring::drain_ring;
use crate::track::TrackDrain;
use capture_flush::{TakeFiles, WriteFault};
use disk_ring::RingOut;
use piece_item::TakeBlock;
use ses_io::Media;

// Takes at most so many blocks out of the ring of a track, one of all rings.
fn drain_track<M: Media>(
    files: &mut TakeFiles,
    tracks: &mut [TrackDrain],
    media: &mut M,
    track: u32,
    rings: &mut [RingOut<TakeBlock>],
    most: u32,
) -> Result<u32, WriteFault>
    ghost at: { Standing }
    requires of { IsTakingOf at.run.session files.old }
    requires rings { rings.old ≡ at.rings }
    requires fitted { AreFitted (record { files = files.old; tracks = tracks.old }) rings.old }
    requires track { track < length rings.old }
    requires tracks { length rings.old ≡ length at.run.session.tracks.items }
    ensures one { IsOneDrained track tracks.old rings.old tracks.new rings.new }
    ensures answer { IfOk result (HasOneTaken most track rings.old rings.new) }
    ensures cut { IfErr result (λ fault. HaveStopped most rings.old rings.new) }
    ensures given { M.outside.tells
        → IsFlushed (tape_of at.run rings.old) files.old (M.outside.files media.old)
        → IsFlushed (tape_of at.run rings.new) files.new (M.outside.files media.new) }
    ensures failed { NotesFault (is_err result) files.old files.new }
    ensures of { IsTakingOf at.run.session files.new }
    ensures media { WritesTakes M.outside at.run.session rings.old rings.new
        media.old media.new result }
{
    drain_ring(
        files,
        &mut tracks[track as usize],
        media,
        track,
        &mut rings[track as usize],
        most,
    )
}

// Takes blocks out of the rings in their order, each until nothing more is there, and all together at most so many.
fn drain_all<M: Media>(
    files: &mut TakeFiles,
    tracks: &mut [TrackDrain],
    media: &mut M,
    rings: &mut [RingOut<TakeBlock>],
    most: u32,
) -> Result<u32, WriteFault>
    ghost run: { RunStart }
    requires of { IsTakingOf run.session files.old }
    requires fitted { AreFitted (record { files = files.old; tracks = tracks.old }) rings.old }
    requires tracks { length rings.old ≡ length run.session.tracks.items }
    ensures rings { AllDrain rings.old rings.new }
    ensures answer { IfOk result (HaveDrained most rings.old rings.new) }
    ensures cut { IfErr result (λ fault. HaveStopped most rings.old rings.new) }
    ensures given { M.outside.tells
        → IsFlushed (tape_of run rings.old) files.old (M.outside.files media.old)
        → IsFlushed (tape_of run rings.new) files.new (M.outside.files media.new) }
    ensures failed { NotesFault (is_err result) files.old files.new }
    ensures fitted { AreFitted (record { files = files.new; tracks = tracks.new }) rings.new }
    ensures of { IsTakingOf run.session files.new }
    ensures media { WritesTakes M.outside run.session rings.old rings.new
        media.old media.new result }
{
    let mut taken = 0;
    let count = tracks.len() as u32;
    for track in 0..count {
        if taken == most {
            return Ok(taken);
        }
        taken += drain_track(files, tracks, media, track, rings, most - taken)?;
    }
    Ok(taken)
}

impl CaptureDrain {
    /// Takes blocks out of the rings in their order, each until nothing more is there, and all together at most so many,
    /// and gives each to the file of its take. Answers how many it took. It takes no memory and waits for no other worker; its
    /// writes may take long. A write fails at the block that was taken last: its take has failed then, of which further blocks
    /// are taken and left out; those of all other takes are written by further calls.
    pub fn drain<M: Media>(
        &mut self,
        media: &mut M,
        rings: &mut [RingOut<TakeBlock>],
        most: u32,
    ) -> Result<u32, WriteFault>
        ghost run: { RunStart }
        requires of { IsTakingOf run.session self.old.files }
        requires fitted { AreFitted self.old rings.old }
        requires tracks { length rings.old ≡ length run.session.tracks.items }
        ensures rings { AllDrain rings.old rings.new }
        ensures answer { IfOk result (HaveDrained most rings.old rings.new) }
        ensures cut { IfErr result (λ fault. HaveStopped most rings.old rings.new) }
        ensures given { M.outside.tells
            → IsFlushed (tape_of run rings.old) self.old.files (M.outside.files media.old)
            → IsFlushed (tape_of run rings.new) self.new.files (M.outside.files media.new) }
        ensures failed { NotesFault (is_err result) self.old.files self.new.files }
        ensures fitted { AreFitted self.new rings.new }
        ensures of { IsTakingOf run.session self.new.files }
        ensures media { WritesTakes M.outside run.session rings.old rings.new
            media.old media.new result }
    {
        let tracks = self.tracks.as_mut_slice();
        drain_all(&mut self.files, tracks, media, rings, most)
    }
}
