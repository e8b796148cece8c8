//! Why a run on one thread is plain.

ghost use Rattle.machine_laws.specs.SerialRun.{SerialIsPlain};

/// A run on one thread without letters has the journal, the edits and the replies of the plain run.
pub fn serial_is_plain()
    ensures { SerialIsPlain }
{}
