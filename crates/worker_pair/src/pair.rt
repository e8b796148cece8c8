//! The two workers of a run with their editions, and control's end of its ring.
ghost use Rattle.std.specs.Prelude.{IfOk, IfErr, ◌≡◌};
ghost use Rattle.worker_pair.specs.Begun.{Begun};
ghost use Rattle.worker_pair.specs.Starts.{MayBegin, IsBegunBy, HaveBegun, given_of};

use crate::beginning::{Start, new_workers};
use butler::Butler;
use disk_ring::RingOut;
use edition_log::Edition;
use piece_item::Ack;
use process_cycle::Process;
use run_rings::{RunEnds, new_run_ends};
use ses_io::{Media, Sink, Source, TryClone};
use std::alloc::Global;

/// Butler and process.
pub struct Pair<M: Media, I: Source, W: Sink> {
    /// The newest edition: edits are published in it, and the butler enters it in each turn.
    pub edition: Edition,
    /// The edition that the process entered last.
    pub playing: Edition,
    /// Whether a cycle is open: the process has entered it, and its entry isn't made.
    pub in_cycle: bool,
    pub butler: Butler<M>,
    pub process: Process<I, W>,
    /// The end that takes what control is told. Control takes nothing.
    pub acks: RingOut<Ack>,
}

impl<M: Media, I: Source, W: Sink> Pair<M, I, W> {
    /// Workers that did nothing yet, with the memory of all their steps. Err is want of memory, and
    /// gives media, input and master back.
    pub fn new(alloc: Global, start: Start<M, I, W>) -> Result<Pair<M, I, W>, (M, I, W)>
        ghost begun: { Begun }
        requires may { MayBegin begun.session start }
        requires told { IsBegunBy M.outside I.outside W.outside begun start }
        ensures begun { IfOk result (HaveBegun M.outside I.outside W.outside begun start) }
        ensures back { IfErr result (λ given. given ≡ given_of start) }
    {
        let Ok(playing) = start.edition.try_clone(alloc) else {
            return Err(start.give_back());
        };
        let Ok(ends) = new_run_ends(alloc, start.edition.session()) else {
            return Err(start.give_back());
        };
        let RunEnds {
            process,
            butler,
            acks,
        } = ends;
        let (edition, process, butler) = match new_workers(alloc, start, process, butler) {
            Ok(workers) => workers,
            Err(given) => return Err(given),
        };
        Ok(Pair {
            edition,
            playing,
            in_cycle: false,
            butler,
            process,
            acks,
        })
    }
}
