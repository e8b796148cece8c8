//! A run from what it is asked for to what it leaves.
ghost use Rattle.std.specs.Prelude.{IfOk, IfErr};
ghost use Rattle.session_play.specs.Causes.{HasCauses};
ghost use Rattle.session_play.specs.Complete.{IsComplete};
ghost use Rattle.session_play.specs.Opening.{IsTold};
ghost use Rattle.session_play.specs.Played.{WasPlayed};
ghost use Rattle.session_play.specs.Ready.{IsKept, IsReady};
ghost use Rattle.session_play.specs.Request.{IsAsked, request_view};

use crate::asked::Request;
use crate::heading::head_of;
use crate::letters::events_of;
use crate::opening::{hear, load};
use crate::outcome::Outcome;
use crate::reporting::{refuse, report};
use cycle_journal::{ReportHead, Status};
use engine_core::run_events;
use input_blocks::sound_of_the_rest;
use run_letters::Event;
use run_world::Opened;
use ses_io::{Media, Sink, Source, World};
use session_opening::Loaded;
use std::alloc::Global;

// A run that is ready to begin.
#[derive(Drop)]
struct Ready<M, I, C, W, O> {
    opened: Opened<M, I, C, W, O>,
    head: ReportHead,
    events: Vec<Event>,
}

// Opens all that a run plays, or answers what keeps it from being played.
fn prepare<M: Media, I: Source, C: Source, W: Sink, O: Sink>(
    alloc: Global,
    asked: &Request<'_>,
    world: World<M, I, C, W, O>,
) -> Result<Ready<M, I, C, W, O>, (Status, World<M, I, C, W, O>)>
    requires { IsAsked asked.now }
    ensures ready { IfOk result (IsReady M.outside I.outside world asked.now) }
    ensures kept { IfErr result (λ e. IsKept M.outside I.outside world asked.now e.0 e.1) }
{
    let mut world = world;
    let Loaded { edition, sources } = match load(alloc, &mut world.media, asked) {
        Ok(loaded) => loaded,
        Err(status) => return Err((status, world)),
    };
    let form = match hear(&mut world.input, edition.session()) {
        Ok(form) => form,
        Err(status) => return Err((status, world)),
    };
    let head = head_of(edition.session(), asked.cycles);
    let Ok(events) = events_of(alloc, asked.letters, asked.cycles) else {
        return Err((Status::NoMemory, world));
    };
    let opened = Opened {
        world,
        edition,
        sources,
        form,
        cycles: asked.cycles,
        script: asked.script,
    };
    Ok(Ready {
        opened,
        head,
        events,
    })
}

/// Plays what is asked for, on one thread. What keeps it from being played is told in this order: the session, its sources, takes that are
/// there where it may record, and the input; out gets its line then. Else out gets replies while the run goes on, and at its end the report
/// and the line of its status.
pub fn play<M: Media, I: Source, C: Source, W: Sink, O: Sink>(
    alloc: Global,
    asked: &Request<'_>,
    world: World<M, I, C, W, O>,
) -> Outcome<M, I, C, W, O>
    requires { IsAsked asked.now }
    ensures told { IsTold M.outside I.outside (M.outside.files world.media) world.input
        (request_view asked.now) result.status }
    ensures played { WasPlayed M.outside I.outside C.outside W.outside O.outside
        world (request_view asked.now) result result.journal }
    ensures causes { HasCauses M.outside I.outside C.outside W.outside O.outside world result }
    ensures complete { IsComplete M.outside I.outside C.outside W.outside O.outside
        world (request_view asked.now) result }
{
    // what the input sounds like is told by what follows its head
    sound_of_the_rest();
    let Ready {
        opened,
        head,
        events,
    } = match prepare(alloc, asked, world) {
        Ok(ready) => ready,
        Err((status, world)) => return refuse(alloc, status, world),
    };
    match run_events(alloc, opened, events.as_slice()) {
        Ok(finished) => report(&head, finished),
        Err(world) => refuse(alloc, Status::NoMemory, world),
    }
}
