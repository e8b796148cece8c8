//! Control, butler and process side by side.
ghost use Rattle.std.specs.Prelude.{◌≤◌};
ghost use Rattle.std.specs.Thread.{IsSync};
ghost use Rattle.lead_worker.specs.Leads.{BeginsToLead};
ghost use Rattle.play_worker.specs.Leaves.{IsReady};
ghost use Rattle.serve_worker.specs.Serves.{ServesAlone};
ghost use Rattle.thread_run.specs.Joined.{HasLed, HasPlayed, HasServed};

use lead_worker::{LeadWorker, Led, lead};
use play_worker::{PlayWorker, Played, play};
use run_bells::Bells;
use serve_worker::{ServeEnd, ServeTold, ServeWorker, serve};
use ses_io::{Media, Sink, Source};
use std::sync::Wait;
use std::thread;
use std::thread::Threads;

/// How many items a turn of the butler moves at most.
const MOST: u32 = 8;

/// What the three leave.
#[derive(Drop)]
pub(crate) struct Joined<'r, R: Wait, M: Media, I: Source, C: Source, W: Sink, O: Sink> {
    pub(crate) led: Led<'r, R, C, O>,
    pub(crate) served: (ServeWorker<M>, ServeEnd),
    pub(crate) played: Played<I, W>,
}

/// The three beside one another, until each has ended. Where no thread can be made they run one after another, the process first.
pub(crate) fn side_by_side<'r, R, M, I, C, W, O>(
    rt: &R,
    told: &ServeTold<M>,
    leading: LeadWorker<'r, R, C, O>,
    serving: ServeWorker<M>,
    playing: PlayWorker<I, W>,
    cycles: u32,
    patience: u64,
    bells: &Bells,
) -> Joined<'r, R, M, I, C, W, O>
where
    R: Threads + Wait + Sync,
    M: Media + Send,
    I: Source,
    C: Source + Send,
    W: Sink,
    O: Sink + Send,
    requires some { 1 ≤ patience }
    requires leads { BeginsToLead told.now.session.value leading.lists leading.control leading.link }
    requires serves { ServesAlone M.outside told.now serving }
    requires plays { IsReady I.outside W.outside playing }
    ensures led { HasLed C.outside O.outside told.now.session.value cycles leading.entry.control
        leading.entry.link result.led }
    ensures served { HasServed M.outside told.now 8 serving result.served.1 result.served.0 }
    ensures played { HasPlayed patience I.outside W.outside playing result.played }
{
    let (led, (served, played)) = thread::join(
        rt,
        move || -> Led<R, C, O>
            requires { BeginsToLead told.now.session.value leading.lists leading.control
                leading.link }
            ensures { HasLed C.outside O.outside told.entry.now.session.value cycles
                leading.entry.control leading.entry.link result }
        { lead(rt, &told.session, leading, cycles, bells) },
        move || -> ((ServeWorker<M>, ServeEnd), Played<I, W>)
            requires { IsSync R.row × (1 ≤ patience) × ServesAlone M.outside told.now serving
                × IsReady I.outside W.outside playing }
            ensures served { HasServed M.outside told.entry.now 8 serving result.0.1 result.0.0 }
            ensures played { HasPlayed patience I.outside W.outside playing result.1 }
        {
            thread::join(
                rt,
                move || -> (ServeWorker<M>, ServeEnd)
                    requires { ServesAlone M.outside told.now serving }
                    ensures { HasServed M.outside told.entry.now 8 serving result.1 result.0 }
                { serve(rt, told, serving, MOST, bells) },
                move || -> Played<I, W>
                    requires { (1 ≤ patience) × IsReady I.outside W.outside playing }
                    ensures { HasPlayed patience I.outside W.outside playing result }
                { play(playing, patience, bells) },
            )
        },
    );
    Joined {
        led,
        served,
        played,
    }
}
