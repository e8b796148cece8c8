//! Which status a command ends with that isn't given its session.
ghost use Rattle.std.specs.Prelude.{◌≡◌};
ghost use Rattle.session_opening.specs.Status.{status_of};

use crate::unopened::Unopened;
use cycle_journal::Status;

/// The status of a command whose session or sources aren't opened.
pub fn status_of(why: Unopened) -> Status
    ensures { result ≡ status_of why }
{
    match why {
        Unopened::Session(refusal) => Status::Session(refusal),
        Unopened::Source(name, why) => Status::SourceFile(name, why),
        Unopened::ReadFault => Status::ReadFault,
        Unopened::NoMemory => Status::NoMemory,
    }
}
