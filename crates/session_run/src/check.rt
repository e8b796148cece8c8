//! `check`: a session and the heads of its sources are read, and its parts are counted.
ghost use Rattle.std.specs.Prelude.{◌≡◌, Some, IfOk, string_bytes};
ghost use Rattle.std.specs.List.{count_by};
ghost use Rattle.ses_io.specs.Outside.{OnlyReads};
ghost use Rattle.session_opening.specs.Plan.{session_plan};
ghost use Rattle.session_run.specs.Tasks.{Checks};
ghost use Rattle.session_run.specs.Status.{EndsWith, IsOfCheck, ReadsFailed, WritesFailed};
ghost use Rattle.session_run.specs.Checked.{IsCheckText, check_text, is_bus};
ghost use Rattle.session_run.specs.Replied.{WritesItsOwn};
ghost use Rattle.session_run.specs.Carried.{CarriesOut};

use crate::writing::write_text;
use cycle_journal::Status;
use ses_io::{Media, Sink, Source, World};
use session_model::{Route, RouteKind, Session};
use session_opening::{Opened, open_session, status_of};
use session_play::{Outcome, unplayed};
use std::alloc::{AllocError, Global};

// How many busses there are among the routes.
fn busses(routes: &[Route]) -> usize
    ensures { result ≡ count_by (λ r. is_bus r.kind) routes.now }
{
    let mut busses = 0;
    for route in routes {
        if route.kind == RouteKind::Bus {
            busses += 1;
        }
    }
    busses
}

// The line that says how many tracks, busses and sources there are.
fn counted(alloc: Global, session: &Session) -> Result<String, AllocError>
    ensures { IfOk result (λ t. string_bytes t ≡ check_text session.now) }
{
    let tracks = session.tracks.as_slice().len();
    let busses = busses(session.routes.as_slice());
    let sources = session.sources.as_slice().len();
    format!(in alloc; "ok {tracks} {busses} {sources}\n")
}

// Counts the parts of the session of the file, and writes the line to out; the status says what came of it.
fn count<M: Media, O: Sink>(alloc: Global, media: &mut M, out: &mut O, name: &str) -> Status
    ensures ends { M.outside.tells → EndsWith Status.OutFault
        (session_plan (M.outside.files media.old) name.now) result }
    ensures status { IsOfCheck result }
    ensures written { WritesItsOwn O.outside (IsCheckText M.outside media.old name.now)
        out.old out.new result }
    ensures reads { ReadsFailed (M.outside.read_faults media.old)
        (M.outside.read_faults media.new) result }
    ensures writes { WritesFailed Status.OutFault (O.outside.faults out.old)
        (O.outside.faults out.new) result }
    ensures only_reads { OnlyReads M.outside media.old media.new }
{
    let Opened {
        session,
        sources: _,
    } = match open_session(alloc, media, name) {
        Ok(opened) => opened,
        Err(why) => return status_of(why),
    };
    let Ok(text) = counted(alloc, &session) else {
        return Status::NoMemory;
    };
    write_text(out, text.as_bytes())
}

/// Reads the session of the file and the heads of its sources, and writes what it has to out.
pub(crate) fn check<M: Media, I: Source, C: Source, W: Sink, O: Sink>(
    alloc: Global,
    name: &str,
    world: World<M, I, C, W, O>,
) -> Outcome<M, I, C, W, O>
    ensures { CarriesOut M.outside I.outside C.outside W.outside O.outside world
        (Some (Checks name.now)) result }
{
    let mut world = world;
    let status = count(alloc, &mut world.media, &mut world.out, name);
    unplayed(alloc, status, world)
}
