//! Which status a run ends with that was played.
ghost use Rattle.std.specs.Prelude.{◌≡◌, false};
ghost use Rattle.session_play.specs.Ending.{status_at_end};

use cycle_journal::Status;
use run_world::Faults;

// The same of a run that had memory enough.
fn status_with_memory(faults: &Faults) -> Status
    ensures { result ≡ status_at_end (record faults.now { memory = false }) }
{
    if faults.input {
        Status::InputFault
    } else if faults.master {
        Status::MasterFault
    } else if faults.read {
        Status::ReadFault
    } else if faults.write {
        Status::WriteFault
    } else if faults.control {
        Status::ControlFault
    } else if faults.long {
        Status::ControlTooLong
    } else if faults.out {
        Status::OutFault
    } else {
        Status::Done
    }
}

/// The status of a run in which this failed: of several faults the first in this order.
pub fn status_at_end(faults: &Faults) -> Status
    ensures { result ≡ status_at_end faults.now }
{
    if faults.memory {
        return Status::NoMemory;
    }
    status_with_memory(faults)
}
