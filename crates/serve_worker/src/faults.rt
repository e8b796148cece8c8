//! Which calls of the media have failed.
ghost use Rattle.std.specs.Prelude.{◌≡◌};
ghost use Rattle.serve_worker.specs.Faults.{faults_after};

use butler::{ButlerFault, Turn};

/// What has failed of the media in a butler's turns.
#[derive(Clone, Copy, Debug, Default, PartialEq, Eq)]
pub struct MediaFaults {
    /// A call that reads.
    pub read: bool,
    /// A call that writes.
    pub write: bool,
}

impl MediaFaults {
    // After a turn.
    pub(crate) fn after(self, answer: &Result<Turn, ButlerFault>) -> MediaFaults
        ensures { result ≡ faults_after answer.now self }
    {
        match answer {
            Ok(_) => self,
            Err(ButlerFault::ReadFault) => MediaFaults { read: true, ..self },
            Err(ButlerFault::WriteFault) => MediaFaults {
                write: true,
                ..self
            },
        }
    }
}
