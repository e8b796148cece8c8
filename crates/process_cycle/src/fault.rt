//! Why a cycle wasn't made.
use input_blocks::InputFault;
use ses_io::Failed;
use thiserror::Error;

/// Why a cycle wasn't made. No further one may be asked for.
#[derive(Clone, Copy, Debug, PartialEq, Eq, Error)]
pub enum CycleFault {
    /// A read of the input failed, and its count of faults rose.
    #[error("the input could not be read")]
    InputFault,
    /// A write of the master failed, and its count of faults rose.
    #[error("the master could not be written")]
    MasterFault,
}

impl From<InputFault> for CycleFault {
    ghost use Rattle.std.specs.Prelude.{◌≡◌};
    ghost use Rattle.process_cycle.specs.declared.fault.CycleFault.TheVariants as fault;

    ghost from_gives = { λ _ e. e ≡ fault.InputFault };

    fn from(_fault: InputFault) -> CycleFault {
        CycleFault::InputFault
    }
}

impl From<Failed> for CycleFault {
    ghost use Rattle.std.specs.Prelude.{◌≡◌};
    ghost use Rattle.process_cycle.specs.declared.fault.CycleFault.TheVariants.{MasterFault};

    ghost from_gives = { λ _ e. e ≡ MasterFault };

    fn from(_error: Failed) -> CycleFault {
        CycleFault::MasterFault
    }
}
