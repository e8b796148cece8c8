//! A media in memory whose first read far in the source's file waits for the process.
use crate::flags::Meeting;
use crate::side_files::SOURCE;
use ses_io::{Failed, Media, MemMedia};

// A read of the source's file is far from this byte on. Its head lies before.
const FAR: u64 = 8_192;

/// Files in memory. The first far read of the source's file meets the process.
#[derive(Drop)]
pub(crate) struct FlagMedia {
    files: MemMedia,
    meeting: Meeting,
}

impl FlagMedia {
    /// These files.
    pub(crate) fn new(files: MemMedia, meeting: Meeting) -> FlagMedia {
        FlagMedia { files, meeting }
    }
}

impl Media for FlagMedia {
    ghost use Rattle.std.specs.Prelude.{⊤};
    ghost use Rattle.ses_io.specs.Stored.{files_in};

    ghost outside = { record {
      tells = ⊤;
      files = λ m. files_in m.files.files;
      read_faults = λ m. m.files.read_faults;
      write_faults = λ m. m.files.write_faults;
    } };

    fn size(&mut self, name: &str) -> Result<Option<u64>, Failed> {
        self.files.size(name)
    }

    fn any(&mut self, prefix: &str) -> Result<bool, Failed> {
        self.files.any(prefix)
    }

    fn read_at(&mut self, name: &str, at: u64, buf: &mut [u8]) -> Result<usize, Failed> {
        if at >= FAR && name == SOURCE {
            self.meeting.meet();
        }
        self.files.read_at(name, at, buf)
    }

    fn append(&mut self, name: &str, bytes: &[u8]) -> Result<usize, Failed> {
        self.files.append(name, bytes)
    }

    fn write_at(&mut self, name: &str, at: u64, bytes: &[u8]) -> Result<usize, Failed> {
        self.files.write_at(name, at, bytes)
    }
}
