//! The butler's thread.
ghost use Rattle.std.specs.Prelude.{◌≡◌, ◌<◌};
ghost use mathlib.Core.List.{IsPrefix};
ghost use Rattle.route_lists.specs.Answers.{HasSameTold};
ghost use Rattle.serve_worker.specs.Kept.{KeepsButler};
ghost use Rattle.serve_worker.specs.Serves.{FlushesAlone, ServesAlone};
ghost use Rattle.serve_worker.specs.Ends.{FlushedOut, ServeLeaves};

use crate::told::ServeTold;
use crate::worker::{ServeWorker, TurnStep, in_edition, one};
use run_bells::Bells;
use ses_io::Media;
use std::sync::Wait;

/// Why no further turn is made.
#[derive(Clone, Copy, Debug, PartialEq, Eq)]
pub enum ServeEnd {
    /// The rings that it takes from were closed, and a turn after that was Idle.
    Over,
    /// The same, but the reader was refused before: since then nothing was sent.
    Refused,
}

/// Turns of at most so many items, each in the newest edition, with a rest after each that was Idle; until the capture rings are
/// closed and a turn after that is Idle. Where the reader is refused, the playback rings are closed, and further turns flush alone.
/// It takes no memory.
pub fn serve<R: Wait, M: Media>(
    rt: &R,
    told: &ServeTold<M>,
    w: ServeWorker<M>,
    most: u32,
    bells: &Bells,
) -> (ServeWorker<M>, ServeEnd)
    requires some { 0 < most }
    requires serves { ServesAlone M.outside told.now w }
    ensures ends { ServeLeaves M.outside told.now most result.1 result.0 }
    ensures keeps { KeepsButler w.butler result.0.butler }
    ensures told { HasSameTold w.reader result.0.reader }
    ensures grows { IsPrefix w.reader.edition.edits result.0.reader.edition.edits }
{
    let mut w = w;
    for _turn in rt.forever() {
        let over = w.butler.over();
        let (next, step) = one(told, w, most);
        w = next;
        match step {
            TurnStep::Served => (),
            TurnStep::Idle if over => return (w, ServeEnd::Over),
            TurnStep::Idle => bells.rest_butler(rt),
            TurnStep::Refused => return (flush_out(rt, told, w, most, bells), ServeEnd::Refused),
        }
    }
    unreachable!()
}

// Turns in the edition that is seen, in which nothing is sent, until the capture rings are closed and a turn after that is Idle.
fn flush_out<R: Wait, M: Media>(
    rt: &R,
    told: &ServeTold<M>,
    w: ServeWorker<M>,
    most: u32,
    bells: &Bells,
) -> ServeWorker<M>
    requires some { 0 < most }
    requires flushes { FlushesAlone M.outside told.now w }
    ensures out { FlushedOut M.outside told.now most w result }
    ensures keeps { KeepsButler w.butler result.butler }
{
    let mut w = w;
    for _turn in rt.forever() {
        let over = w.butler.over();
        let (next, idle) = in_edition(told, w, most);
        w = next;
        if idle && over {
            return w;
        }
        if idle {
            bells.rest_butler(rt);
        }
    }
    unreachable!()
}
