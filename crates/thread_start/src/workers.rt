//! The workers of a run on threads.
ghost use Rattle.std.specs.Prelude.{◌≡◌, IfOk, IfErr};
ghost use Rattle.butler.specs.Takes.{MayRecord};
ghost use Rattle.worker_pair.specs.Starts.{MayBegin, given_of};
ghost use Rattle.thread_start.specs.Ready.{AreReady};

use crate::shared::{Shared, share};
use cycle_grants::Granting;
use disk_ring::RingOut;
use piece_item::Ack;
use play_worker::{PlayWorker, Told};
use route_lists::Lists;
use run_rings::RunEnds;
use serve_worker::{MediaFaults, ServeTold, ServeWorker};
use ses_io::{Media, Sink, Source};
use std::alloc::Global;
use std::sync::Wait;
use worker_pair::{Start, new_workers};

/// The process and the butler, each for a thread of its own, and what control has.
#[derive(Drop)]
pub struct Workers<'r, R: Wait, M: Media, I: Source, W: Sink> {
    pub playing: PlayWorker<I, W>,
    pub serving: ServeWorker<M>,
    /// What the butler was given at first, which its thread borrows.
    pub told: ServeTold<M>,
    /// Edits are published in it.
    pub lists: Lists<'r, R>,
    /// Control's end of the ring of grants.
    pub granting: Granting,
    /// Control's end of its ring of acknowledgements.
    pub acks: RingOut<Ack>,
}

/// Workers that did nothing yet, with the memory of all their steps. Err is want of memory, and gives media, input and master
/// back.
pub fn ready<'r, R: Wait, M: Media, I: Source, W: Sink>(
    rt: &'r R,
    alloc: Global,
    start: Start<M, I, W>,
) -> Result<Workers<'r, R, M, I, W>, (M, I, W)>
    requires may { MayBegin start.edition.session start }
    requires record { M.outside.tells
        → MayRecord start.edition.session (M.outside.files start.media) start.sources.opened }
    ensures ready { IfOk result (λ w. AreReady M.outside I.outside W.outside start w.playing
        w.serving w.told w.lists w.granting w.acks) }
    ensures back { IfErr result (λ given. given ≡ given_of start) }
{
    let Ok(shared) = share(rt, alloc, &start.edition) else {
        return Err(start.give_back());
    };
    let Shared {
        lists,
        playing,
        serving,
        ends,
        granting,
        allowance,
    } = shared;
    let RunEnds {
        process,
        butler,
        acks,
    } = ends;
    let told = ServeTold::of(start.edition.session(), &start.media);
    let first = Told::of(start.edition.session(), &start.input, &start.master);
    match new_workers(alloc, start, process, butler) {
        Ok((_edition, process, butler)) => Ok(Workers {
            playing: PlayWorker {
                reader: playing,
                process,
                grants: allowance,
                told: first,
            },
            serving: ServeWorker {
                reader: serving,
                butler,
                failed: MediaFaults::default(),
            },
            told,
            lists,
            granting,
            acks,
        }),
        Err(given) => Err(given),
    }
}
