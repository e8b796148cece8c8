//! A sink in memory whose second write waits for the butler.
use crate::flags::Meeting;
use ses_io::{Failed, MemSink, Sink};

/// Bytes in memory. The write behind the first one meets the butler.
#[derive(Drop)]
pub(crate) struct FlagSink {
    bytes: MemSink,
    meeting: Meeting,
    begun: bool,
}

impl FlagSink {
    /// This sink, to which nothing was written yet.
    pub(crate) fn new(bytes: MemSink, meeting: Meeting) -> FlagSink {
        FlagSink {
            bytes,
            meeting,
            begun: false,
        }
    }
}

impl Sink for FlagSink {
    ghost use Rattle.std.specs.Prelude.{⊤};

    ghost outside = { record {
      tells = ⊤;
      held = λ s. s.bytes.held;
      faults = λ s. s.bytes.faults;
    } };

    fn write(&mut self, bytes: &[u8]) -> Result<usize, Failed> {
        if self.begun {
            self.meeting.meet();
        }
        self.begun = true;
        self.bytes.write(bytes)
    }
}
