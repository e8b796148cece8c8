//! Butler and process side by side, where the list of edits goes away.
ghost use Rattle.std.specs.Prelude.{◌≤◌};
ghost use Rattle.std.specs.Thread.{IsSync};
ghost use Rattle.play_worker.specs.Leaves.{IsReady};
ghost use Rattle.serve_worker.specs.Serves.{ServesAlone};

use cycle_grants::Granting;
use play_worker::{PlayWorker, Played, play};
use route_lists::Lists;
use run_bells::Bells;
use run_world::Grant;
use serve_worker::{ServeEnd, ServeTold, ServeWorker, serve};
use ses_io::{Media, Sink, Source};
use std::sync::Wait;
use std::thread;
use std::thread::Threads;

/// How many entries the process has made at least when the list goes.
pub(crate) const FEW: u64 = 9;

// How many items a turn of the butler moves at most.
const MOST: u32 = 8;

// How often the process looks for a piece, and tries for an allowance.
const PATIENCE: u64 = 100_000;

// Until the process has made so many entries, or makes none any more.
fn rest_until<R: Wait>(rt: &R, bells: &Bells, entries: u64) {
    for _ in rt.forever() {
        let far = bells.progress();
        if far.ended || far.entries >= entries {
            return;
        }
        bells.rest_control(rt);
    }
}

// Allows so many cycles, and lets go of the list once a few were made.
fn lose<'r, R: Wait>(
    rt: &R,
    lists: Lists<'r, R>,
    granting: Granting,
    cycles: u32,
    bells: &Bells,
) -> Granting {
    let mut granting = granting;
    let _ = granting.allow(Grant { cycles, edition: 0 });
    rest_until(rt, bells, FEW);
    drop(lists);
    granting
}

/// What butler and process leave.
#[derive(Drop)]
pub(crate) struct Left<M: Media, I: Source, W: Sink> {
    pub(crate) served: (ServeWorker<M>, ServeEnd),
    pub(crate) played: Played<I, W>,
}

/// What the two leave that ran beside each other.
pub(crate) fn both<R, M, I, W>(
    rt: &R,
    told: &ServeTold<M>,
    serving: ServeWorker<M>,
    playing: PlayWorker<I, W>,
    bells: &Bells,
) -> Left<M, I, W>
where
    R: Threads + Wait + Sync,
    M: Media + Send,
    I: Source,
    W: Sink,
    requires plays { IsReady I.outside W.outside playing }
    requires serves { ServesAlone M.outside told.now serving }
{
    let (served, played) = thread::join(
        rt,
        move || -> (ServeWorker<M>, ServeEnd)
            requires { ServesAlone M.outside told.now serving }
        { serve(rt, told, serving, MOST, bells) },
        move || -> Played<I, W>
            requires { IsReady I.outside W.outside playing }
        { play(playing, PATIENCE, bells) },
    );
    Left { served, played }
}

/// What the two leave where control, beside them, allows so many cycles and then lets go of the list.
pub(crate) fn with_a_loss<'r, R, M, I, W>(
    rt: &R,
    lists: Lists<'r, R>,
    granting: Granting,
    cycles: u32,
    told: &ServeTold<M>,
    serving: ServeWorker<M>,
    playing: PlayWorker<I, W>,
    bells: &Bells,
) -> Left<M, I, W>
where
    R: Threads + Wait + Sync,
    M: Media + Send,
    I: Source,
    W: Sink,
    requires plays { IsReady I.outside W.outside playing }
    requires serves { ServesAlone M.outside told.now serving }
{
    let (_granting, left) = thread::join(
        rt,
        move || -> Granting { lose(rt, lists, granting, cycles, bells) },
        move || -> Left<M, I, W>
            requires { IsSync R.row × ServesAlone M.outside told.now serving
                × IsReady I.outside W.outside playing }
        { both(rt, told, serving, playing, bells) },
    );
    left
}
