//! A command's own text, written to out.
ghost use Rattle.std.specs.Prelude.{◌≡◌, ◌⊎◌};
ghost use Rattle.session_play.specs.Unplayed.{Gets, GetsAFront};
ghost use Rattle.session_run.specs.Status.{WritesFailed};

use cycle_journal::Status;
use ses_io::{Sink, write_all};

/// Writes the text, and says how that ended.
pub(crate) fn write_text<O: Sink>(out: &mut O, text: &[u8]) -> Status
    ensures ends { (result ≡ Status.Done) ⊎ (result ≡ Status.OutFault) }
    ensures whole { result ≡ Status.Done → Gets O.outside text.now out.old out.new }
    ensures front { result ≡ Status.OutFault → GetsAFront O.outside text.now out.old out.new }
    ensures writes { WritesFailed Status.OutFault (O.outside.faults out.old)
        (O.outside.faults out.new) result }
{
    match write_all(out, text) {
        Ok(()) => Status::Done,
        Err(_) => Status::OutFault,
    }
}
