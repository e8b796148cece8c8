//! A source in memory whose first read behind its head waits for the butler.
use crate::flags::Meeting;
use crate::side_files::HEAD;
use ses_io::{Failed, MemSource, Source};

/// Bytes in memory. The first read that begins behind the head meets the butler.
#[derive(Drop)]
pub(crate) struct FlagSource {
    bytes: MemSource,
    meeting: Meeting,
    read: usize,
}

impl FlagSource {
    /// These bytes, of which none was read yet.
    pub(crate) fn new(bytes: MemSource, meeting: Meeting) -> FlagSource {
        FlagSource {
            bytes,
            meeting,
            read: 0,
        }
    }
}

impl Source for FlagSource {
    ghost use Rattle.std.specs.Prelude.{⊤};

    ghost outside = { record {
      tells = ⊤;
      left = λ s. s.bytes.left;
      faults = λ s. s.bytes.faults;
    } };

    fn read(&mut self, buf: &mut [u8]) -> Result<usize, Failed> {
        if self.read >= HEAD {
            self.meeting.meet();
        }
        let many = self.bytes.read(buf)?;
        self.read = self.read.saturating_add(many);
        Ok(many)
    }
}
