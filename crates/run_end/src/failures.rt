//! What has failed in a run so far.
ghost use Rattle.std.specs.Prelude.{◌≡◌};
ghost use Rattle.run_end.specs.Failures.{after_turn, after_cycle, has_stopped};

use butler::{ButlerFault, Turn};
use process_cycle::CycleFault;

/// Which objects of the outside have failed.
#[derive(Clone, Copy, Debug, Default, PartialEq, Eq)]
pub struct Failures {
    /// A read of the input failed.
    pub input: bool,
    /// A write of the master failed.
    pub master: bool,
    /// A call that reads the media failed.
    pub read: bool,
    /// A call that writes the media failed.
    pub write: bool,
}

impl Failures {
    /// Whether the process has ended: after a fault of the input or of the master it makes no
    /// cycle.
    pub fn has_stopped(&self) -> bool
        ensures { result ≡ has_stopped self.now }
    {
        self.input || self.master
    }

    /// What has failed after a turn of the butler.
    pub fn after_turn(self, answer: &Result<Turn, ButlerFault>) -> Failures
        ensures { result ≡ after_turn answer.now self }
    {
        match answer {
            Ok(_) => self,
            Err(ButlerFault::ReadFault) => Failures { read: true, ..self },
            Err(ButlerFault::WriteFault) => Failures {
                write: true,
                ..self
            },
        }
    }

    /// What has failed after a call of the process.
    pub fn after_cycle(self, answer: &Result<(), CycleFault>) -> Failures
        ensures { result ≡ after_cycle answer.now self }
    {
        match answer {
            Ok(()) => self,
            Err(CycleFault::InputFault) => Failures {
                input: true,
                ..self
            },
            Err(CycleFault::MasterFault) => Failures {
                master: true,
                ..self
            },
        }
    }
}
