//! All that a play on threads begins with: its memory is taken here, before the first thread starts.
ghost use Rattle.std.specs.Prelude.{◌≡◌, None, [], IfOk, IfErr};
ghost use Rattle.control_desk.specs.State.{reading};
ghost use Rattle.run_end.specs.Beginning.{MayRun};
ghost use Rattle.thread_run.specs.Beginning.{HaveAllBegun, spoken_of, start_of, world_of};

use control_desk::Control;
use lead_worker::{AckHearing, LeadWorker, ProcessLink};
use piece_item::Ack;
use play_worker::PlayWorker;
use run_end::RunLists;
use run_world::Opened;
use serve_worker::{ServeTold, ServeWorker};
use ses_io::{Media, Sink, Source, World};
use std::alloc::Global;
use std::sync::Wait;
use thread_start::{Workers, ready};
use worker_pair::Start;

/// Control, butler and process, each for a thread of its own.
#[derive(Drop)]
pub(crate) struct Crew<'r, R: Wait, M: Media, I: Source, C: Source, W: Sink, O: Sink> {
    pub(crate) leading: LeadWorker<'r, R, C, O>,
    pub(crate) serving: ServeWorker<M>,
    pub(crate) playing: PlayWorker<I, W>,
    /// What the run was given at first, for clauses alone.
    pub(crate) told: ServeTold<M>,
    /// What the run will leave, empty yet.
    pub(crate) lists: RunLists,
}

/// What control is given: where its lines come from, and where its replies go.
pub(crate) struct Spoken<C, O> {
    pub(crate) lines: C,
    pub(crate) out: O,
}

// What was opened, apart.
fn apart<M, I, C, W, O>(o: Opened<M, I, C, W, O>) -> (Start<M, I, W>, Spoken<C, O>)
    ensures start { result.0 ≡ start_of o }
    ensures spoken { result.1 ≡ spoken_of o }
{
    let World {
        media,
        input,
        control: lines,
        master,
        out,
    } = o.world;
    let start = Start {
        edition: o.edition,
        sources: o.sources,
        cycles: o.cycles,
        form: o.form,
        media,
        input,
        master,
    };
    (start, Spoken { lines, out })
}

// The world again.
fn together<M, I, C, W, O>(given: (M, I, W), spoken: Spoken<C, O>) -> World<M, I, C, W, O>
    ensures { result ≡ world_of given spoken }
{
    let (media, input, master) = given;
    let Spoken { lines, out } = spoken;
    World {
        media,
        input,
        control: lines,
        master,
        out,
    }
}

/// A crew that did nothing yet, with all its memory. Err is want of memory, and gives the world back as it was.
pub(crate) fn begin<'r, R: Wait, M: Media, I: Source, C: Source, W: Sink, O: Sink>(
    rt: &'r R,
    alloc: Global,
    o: Opened<M, I, C, W, O>,
) -> Result<Crew<'r, R, M, I, C, W, O>, World<M, I, C, W, O>>
    requires may { MayRun M.outside o }
    requires reads { o.script ≡ None }
    ensures begun { IfOk result (HaveAllBegun M.outside I.outside W.outside o) }
    ensures back { IfErr result (λ w. w ≡ o.world) }
{
    let tracks = o.edition.session().tracks.len() as u32;
    let (start, spoken) = apart(o);
    let Ok(lists) = RunLists::new(alloc, tracks) else {
        return Err(together(start.give_back(), spoken));
    };
    let Ok(husk) = Ack::blank(alloc) else {
        return Err(together(start.give_back(), spoken));
    };
    match ready(rt, alloc, start) {
        Ok(workers) => Ok(with_control(workers, spoken, husk, lists)),
        Err(given) => Err(together(given, spoken)),
    }
}

// The workers with control, which reads its lines.
fn with_control<'r, R: Wait, M: Media, I: Source, C: Source, W: Sink, O: Sink>(
    workers: Workers<'r, R, M, I, W>,
    spoken: Spoken<C, O>,
    husk: Box<Ack>,
    lists: RunLists,
) -> Crew<'r, R, M, I, C, W, O>
    requires fresh { workers.acks.received ≡ [] }
    requires room { workers.acks.room ≡ 0 }
    ensures playing { result.playing ≡ workers.entry.playing }
    ensures serving { result.serving ≡ workers.entry.serving }
    ensures told { result.told ≡ workers.entry.told }
    ensures list { result.leading.lists ≡ workers.entry.lists }
    ensures granting { result.leading.link.granting ≡ workers.entry.granting }
    ensures acks { result.leading.link.hearing ≡ workers.entry.acks }
    ensures control { result.leading.control ≡ reading spoken.lines spoken.out }
    ensures lists { result.lists ≡ lists }
{
    let Workers {
        playing,
        serving,
        told,
        lists: list,
        granting,
        acks,
    } = workers;
    let Spoken { lines: from, out } = spoken;
    let leading = LeadWorker {
        lists: list,
        control: Control::reading(from, out),
        link: ProcessLink::new(granting, AckHearing::new(acks, husk)),
    };
    Crew {
        leading,
        serving,
        playing,
        told,
        lists,
    }
}
