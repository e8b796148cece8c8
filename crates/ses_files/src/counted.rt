//! How the outcome of a call of the system is counted.
ghost use Rattle.std.specs.Prelude.{◌≡◌};
ghost use Rattle.ses_io.specs.Faults.{HasCause};

use ses_io::Failed;

/// Hands the outcome on; a fault raises the count, which stands still at its type's end.
pub(crate) fn counted<T>(faults: &mut u64, outcome: Result<T, Failed>) -> Result<T, Failed>
    ensures outcome { result ≡ outcome }
    ensures cause { HasCause faults.old faults.new result }
{
    if outcome.is_err() {
        *faults = faults.saturating_add(1);
    }
    outcome
}
