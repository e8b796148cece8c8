//! The events that a run is given before its serial rest.
ghost use Rattle.std.specs.Prelude.{◌≡◌, ◌≤◌, map, IfOk};
ghost use Rattle.run_letters.specs.Events.{letter_of};
ghost use Rattle.session_play.specs.Request.{letters_of};

use crate::asked::Letters;
use run_letters::{Event, seeded, stepped};
use ses_io::NoMemory;
use std::alloc::Global;

/// The events of these letters, of a run of so many cycles.
pub(crate) fn events_of(
    alloc: Global,
    letters: Letters<'_>,
    cycles: u32,
) -> Result<Vec<Event>, NoMemory>
    requires { cycles ≤ 100000 }
    ensures { IfOk result (λ v. map letter_of v.items ≡ letters_of letters.entry cycles) }
{
    match letters {
        Letters::Absent => Ok(Vec::new(alloc)),
        Letters::Steps(text) => stepped(alloc, text),
        Letters::Seed(seed) => seeded(alloc, seed, cycles),
    }
}
