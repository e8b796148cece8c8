//! Where control stands.
ghost use Rattle.std.specs.Prelude.{◌≡◌};
ghost use Rattle.control_desk.specs.Standing.{standing_of, has_quit};

use crate::progress::Awaited;

/// Why no line is carried out any more.
#[derive(Clone, Copy, Debug, PartialEq, Eq)]
pub(crate) enum End {
    /// No line is left.
    NoLine,
    /// A quit was accepted.
    Quit,
    /// A read of control failed.
    ReadFailed,
    /// A write of out failed, be it the reply to an accepted quit or not.
    WriteFailed(bool),
}

/// Where control stands.
#[derive(Clone, Copy, Debug, PartialEq, Eq)]
pub(crate) enum Standing {
    /// The next line may be carried out.
    Ready,
    Awaits(Awaited),
    Ended(End),
}

impl Standing {
    /// Whether a quit was accepted.
    pub(crate) fn has_quit(self) -> bool
        ensures { result ≡ has_quit (standing_of self) }
    {
        match self {
            Standing::Ended(End::Quit) => true,
            Standing::Ended(End::WriteFailed(quit)) => quit,
            _ => false,
        }
    }
}
