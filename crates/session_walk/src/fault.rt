//! Why no session was read: its text is refused, or memory ran out.
use ses_io::NoMemory;
use session_model::SessionRefusal;
use std::alloc::{AllocError, AllocFailed};

/// Why no session was read.
#[derive(Clone, Copy)]
pub enum SessionFault {
    /// The first rule that the text breaks.
    Refused(SessionRefusal),
    /// Memory ran out.
    NoMemory,
}

impl From<SessionRefusal> for SessionFault {
    ghost use Rattle.std.specs.Prelude.{◌≡◌};
    ghost use Rattle.session_walk.specs.declared.fault.SessionFault.TheVariants.{Refused};

    ghost from_gives = { λ refusal e. e ≡ Refused refusal };

    fn from(refusal: SessionRefusal) -> SessionFault {
        SessionFault::Refused(refusal)
    }
}

impl From<NoMemory> for SessionFault {
    ghost use Rattle.std.specs.Prelude.{◌≡◌};
    ghost use Rattle.session_walk.specs.declared.fault.SessionFault.TheVariants as fault;

    ghost from_gives = { λ _ e. e ≡ fault.NoMemory };

    fn from(_error: NoMemory) -> SessionFault {
        SessionFault::NoMemory
    }
}

impl From<AllocError> for SessionFault {
    ghost use Rattle.std.specs.Prelude.{◌≡◌};
    ghost use Rattle.session_walk.specs.declared.fault.SessionFault.TheVariants as fault;

    ghost from_gives = { λ _ e. e ≡ fault.NoMemory };

    fn from(_error: AllocError) -> SessionFault {
        SessionFault::NoMemory
    }
}

impl<T: Drop> From<AllocFailed<T>> for SessionFault {
    ghost use Rattle.std.specs.Prelude.{◌≡◌};
    ghost use Rattle.session_walk.specs.declared.fault.SessionFault.TheVariants as fault;

    ghost from_gives = { λ _ e. e ≡ fault.NoMemory };

    fn from(_error: AllocFailed<T>) -> SessionFault {
        SessionFault::NoMemory
    }
}
