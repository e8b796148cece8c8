//! Why a run isn't verified.
use heard_blocks::HeardFault;

/// Why a run isn't verified. Lines count from 1 at the start of the report's file.
#[derive(Clone, Copy, Debug, PartialEq, Eq)]
pub enum Unverified {
    /// This line is the first that no report has there.
    BadReport(u64),
    /// This line is the first that doesn't stand.
    Refuted(u64),
    /// A file wasn't read, or there was no memory.
    Unread(HeardFault),
}

impl From<HeardFault> for Unverified {
    ghost use Rattle.std.specs.Prelude.{◌≡◌};
    ghost use Rattle.report_check.specs.declared.unverified.Unverified.TheVariants as why;

    ghost from_gives = { λ fault e. e ≡ why.Unread fault };

    fn from(fault: HeardFault) -> Unverified {
        Unverified::Unread(fault)
    }
}
