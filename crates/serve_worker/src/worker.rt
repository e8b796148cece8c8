//! What the butler's thread owns, and one turn of it.
ghost use Rattle.std.specs.Prelude.{◌≡◌, ◌<◌, MatchResult};
ghost use mathlib.Core.List.{IsPrefix};
ghost use Rattle.session_model.specs.declared.session.Session.{Session as Opening};
ghost use Rattle.route_lists.specs.Lists.{IsReaderOf};
ghost use Rattle.route_lists.specs.Answers.{Enters, HasSameTold};
ghost use Rattle.butler.specs.Hushed.{Hushes};
ghost use Rattle.serve_worker.specs.Kept.{KeepsButler};
ghost use Rattle.serve_worker.specs.Serves.{FlushesAt, ServedFrom, ServesAt, TurnsAt, with_entered};
ghost use Rattle.serve_worker.specs.Ends.{TurnedOnce, TurnLeaves, is_idle};

use crate::faults::MediaFaults;
use crate::told::ServeTold;
use butler::{Butler, ButlerFault, Turn};
use route_lists::ListReader;
use ses_io::Media;

/// The butler with its reader.
#[derive(Drop)]
pub struct ServeWorker<M: Media> {
    pub reader: ListReader,
    pub butler: Butler<M>,
    /// What has failed in its turns.
    pub failed: MediaFaults,
}

/// How a turn went, as far as the butler's thread goes by it.
#[derive(Clone, Copy, Debug, PartialEq, Eq)]
pub(crate) enum TurnStep {
    /// Something was moved, or a fault was met.
    Served,
    /// There was nothing to do.
    Idle,
    /// The reader was refused, and no turn was made.
    Refused,
}

// Whether a turn was Idle.
fn is_idle(answer: Result<Turn, ButlerFault>) -> bool
    ensures { result ≡ is_idle answer }
{
    match answer {
        Ok(Turn::Idle) => true,
        Ok(Turn::Moved(_)) | Err(_) => false,
    }
}

// The newest edition is entered. Err is a reader that was refused.
fn newest<M: Media>(w: ServeWorker<M>) -> Result<ServeWorker<M>, ServeWorker<M>>
    ensures reader { (s : Opening) → IsReaderOf s w.reader
        → MatchResult result (λ r. IsReaderOf s r.reader) (λ r. IsReaderOf s r.reader) }
    ensures same { MatchResult result (λ r. r ≡ record w { reader = r.reader })
        (λ r. r ≡ record w { reader = r.reader }) }
    ensures enters { MatchResult result (λ r. Enters w.reader r.reader)
        (λ r. IsPrefix w.reader.edition.edits r.reader.edition.edits) }
    ensures told { MatchResult result (λ r. HasSameTold w.reader r.reader)
        (λ r. HasSameTold w.reader r.reader) }
{
    let ServeWorker {
        reader,
        butler,
        failed,
    } = w;
    match reader.enter() {
        Ok(reader) => Ok(ServeWorker {
            reader,
            butler,
            failed,
        }),
        Err(reader) => Err(ServeWorker {
            reader,
            butler,
            failed,
        }),
    }
}

/// A turn of at most so many items in the edition that is seen. Whether it was Idle.
pub(crate) fn in_edition<M: Media>(
    told: &ServeTold<M>,
    w: ServeWorker<M>,
    most: u32,
) -> (ServeWorker<M>, bool)
    ghost on: { ServedFrom }
    requires some { 0 < most }
    requires may { TurnsAt on w }
    ensures serves { ServesAt M.outside on w
        → ServesAt M.outside (with_entered result.0.reader.edition.edits on) result.0 }
    ensures flushes { FlushesAt M.outside on w
        → FlushesAt M.outside (with_entered result.0.reader.edition.edits on) result.0 }
    ensures turned { TurnedOnce M.outside on.at.session most w result.1 result.0 }
    ensures same { result.0 ≡ record w { butler = result.0.butler; failed = result.0.failed } }
    ensures keeps { KeepsButler w.butler result.0.butler }
{
    // by which the caller's clauses know the worker's first media
    let _ = told;
    let ServeWorker {
        reader,
        mut butler,
        failed,
    } = w;
    let answer = butler.turn(reader.edition(), most);
    let noted = failed.after(&answer);
    let next = ServeWorker {
        reader,
        butler,
        failed: noted,
    };
    (next, is_idle(answer))
}

/// A turn of at most so many items in the newest edition. Where the reader is refused none is made, and nothing is sent any more.
pub(crate) fn one<M: Media>(
    told: &ServeTold<M>,
    w: ServeWorker<M>,
    most: u32,
) -> (ServeWorker<M>, TurnStep)
    ghost on: { ServedFrom }
    requires some { 0 < most }
    requires serves { ServesAt M.outside on w }
    ensures leaves { TurnLeaves M.outside on most w result.1 result.0 }
    ensures keeps { KeepsButler w.butler result.0.butler }
    ensures told { HasSameTold w.reader result.0.reader }
    ensures grows { IsPrefix w.reader.edition.edits result.0.reader.edition.edits }
{
    match newest(w) {
        Ok(w) => {
            let (w, idle) = in_edition(told, w, most);
            (
                w,
                if idle {
                    TurnStep::Idle
                } else {
                    TurnStep::Served
                },
            )
        }
        Err(w) => (hushed(w), TurnStep::Refused),
    }
}

// Nothing is sent any more.
fn hushed<M: Media>(w: ServeWorker<M>) -> ServeWorker<M>
    ensures hushes { Hushes w.butler result.butler }
    ensures same { result ≡ record w { butler = result.butler } }
{
    let mut w = w;
    w.butler.hush();
    w
}
