//! The one error of the input.
use ses_io::Failed;
use thiserror::Error;

/// A read of the input failed, and its count of faults rose.
#[derive(Clone, Copy, Debug, PartialEq, Eq, Error)]
#[error("the input could not be read")]
pub struct InputFault;

impl From<Failed> for InputFault {
    ghost use Rattle.std.specs.Prelude.{⊤};

    ghost from_gives = { λ _ _. ⊤ };

    fn from(_error: Failed) -> InputFault {
        InputFault
    }
}
