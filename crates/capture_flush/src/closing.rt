//! A take closed: what was lost at its end, its pad byte, and its header.
ghost use Rattle.std.specs.Prelude.{◌≡◌, ◌*◌, ◌<◌, ◌≤◌, ◌^◌, length, OnOk, OnErr};
ghost use Rattle.ses_io.specs.Outside.{WriteCause};
ghost use Rattle.session_model.specs.declared.session.Session.{Session as Opened};
ghost use Rattle.capture_flush.specs.Closing.{ending_of, closed, HasHead, ClosesInPart};
ghost use Rattle.capture_flush.specs.Taking.{IsTakingOf};
ghost use Rattle.capture_flush.specs.Writes.{Adds};

use crate::fault::WriteFault;
use crate::run::Run;
use crate::takes::TakeFiles;
use crate::writes::{begin, overwrite_front, pad};
use ses_io::Media;

impl TakeFiles {
    // Adds what a take lacks at its end; its blocks have this size, and `none` is the header of none.
    fn add_ending<M: Media>(
        &mut self,
        media: &mut M,
        name: &str,
        none: &[u8],
        size: usize,
        run: Run,
    ) -> Result<(), WriteFault>
        requires room { size ≤ self.old.block * 6 }
        requires small { run.blocks * size < 2 ^ 64 }
        ensures adds { Adds M.outside name.now (ending_of none.now size run)
            media.old media.new result }
        ensures same { self.new ≡ self.old }
    {
        begin(media, name, none, run.filled == 0)?;
        let lost = u64::from(run.blocks.saturating_sub(run.filled));
        self.add_zeros(media, name, size, lost)?;
        pad(media, name, u64::from(run.blocks) * size as u64)
    }

    /// Closes the file of a take.
    pub(crate) fn close<M: Media>(
        &mut self,
        media: &mut M,
        track: u32,
        run: Run,
    ) -> Result<(), WriteFault>
        ghost s: { Opened }
        requires of { IsTakingOf s self.old }
        requires track { track < length s.tracks.items }
        requires few { run.blocks ≤ 100000 }
        requires head { M.outside.tells → HasHead s track (M.outside.files media.old) run }
        ensures all { M.outside.tells → OnOk result (M.outside.files media.new
            ≡ closed s track run (M.outside.files media.old)) }
        ensures part { M.outside.tells → OnErr result
            (ClosesInPart s track run (M.outside.files media.old) (M.outside.files media.new)) }
        ensures cause { WriteCause M.outside media.old media.new result }
        ensures reads { M.outside.read_faults media.new ≡ M.outside.read_faults media.old }
        ensures same { self.new ≡ self.old }
    {
        let name = self.file_name(track, run.take);
        let name = name.as_str();
        let size = self.block_size(track);
        let none = self.header(track, 0);
        self.add_ending(media, name, &none, size, run)?;
        let head = self.header(track, run.blocks);
        overwrite_front(media, name, &head)
    }
}
