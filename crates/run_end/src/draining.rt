//! The last turns of the butler: it serves the rings that the process left until nothing is left to do.
ghost use Rattle.std.specs.Prelude.{◌≡◌, length};
ghost use Rattle.worker_pair.specs.Steps.{is_idle_answer};
ghost use Rattle.run_end.specs.Started.{Started};
ghost use Rattle.run_end.specs.LastTurns.{AllReceived, HasTurned, LeavesAllElse, TakesLastTurns};

use crate::failures::Failures;
use butler::{ButlerFault, Turn};
use ses_io::Media;
use worker_pair::Ending;

/// Whether a turn of the butler was Idle. A turn that failed wasn't.
pub fn is_idle(answer: &Result<Turn, ButlerFault>) -> bool
    ensures { result ≡ is_idle_answer answer.now }
{
    matches!(answer, Ok(Turn::Idle))
}

/// Turns until one is Idle, and what has failed by then.
pub(crate) fn drain<M: Media, I, W>(ending: Ending<M>, failed: Failures) -> (Ending<M>, Failures)
    ghost on: { Started M I W }
    requires { TakesLastTurns M.outside on ending failed }
    ensures last { TakesLastTurns M.outside on result.0 result.1 }
    ensures alone { LeavesAllElse ending failed result.0 result.1 }
    ensures entered { result.0.butler.entered ≡ length result.0.edition.edits }
    ensures received { AllReceived result.0 }
    ensures turns { HasTurned M.outside on.begun ending failed result.0 result.1 }
{
    let mut ending = ending;
    let mut failed = failed;
    'draining: loop {
        let (turned, answer) = ending.turn();
        failed = failed.after_turn(&answer);
        ending = turned;
        if is_idle(&answer) {
            return (ending, failed);
        }
    }
}
