//! What the workers of a run are made of, and how they are made.
ghost use Rattle.std.specs.Prelude.{◌≡◌, IfOk, IfErr};
ghost use Rattle.session_model.specs.declared.session.Session.{Session as Opening};
ghost use Rattle.process_ends.specs.Ends.{AreNew};
ghost use Rattle.run_rings.specs.Laws.{AreNewForButler};
ghost use Rattle.worker_pair.specs.Starts.{HaveWorkers, MayBegin, given_of};

use audio_source::Sources;
use butler::Butler;
use edition_log::Edition;
use piece_item::ButlerEnds;
use process_cycle::{Process, ProcessParts};
use process_ends::ProcessEnds;
use ses_io::{Media, Sink, Source};
use std::alloc::Global;
use wav_codec::WavInfo;

/// What a run is to play, and what it reads and writes.
pub struct Start<M, I, W> {
    /// Edition 0 of the session.
    pub edition: Edition,
    /// Opened for the session's sources.
    pub sources: Sources,
    /// How many cycles are asked for, 1..100,000.
    pub cycles: u32,
    /// What the input has left is the data of this form; with none there is no input.
    pub form: Option<WavInfo>,
    pub media: M,
    pub input: I,
    pub master: W,
}

impl<M, I, W> Start<M, I, W> {
    /// Gives media, input and master back, and lets go of the rest.
    pub fn give_back(self) -> (M, I, W)
        ensures { result ≡ given_of self }
    {
        let Start {
            edition: _,
            sources: _,
            cycles: _,
            form: _,
            media,
            input,
            master,
        } = self;
        (media, input, master)
    }
}

/// New workers with these ends of new rings. Err is want of memory, and gives media, input and
/// master back.
pub fn new_workers<M: Media, I: Source, W: Sink>(
    alloc: Global,
    start: Start<M, I, W>,
    ours: ProcessEnds,
    theirs: ButlerEnds,
) -> Result<(Edition, Process<I, W>, Butler<M>), (M, I, W)>
    ghost s: { Opening }
    requires may { MayBegin s start }
    requires ours { AreNew s ours }
    requires theirs { AreNewForButler s theirs }
    ensures workers { IfOk result (λ w. HaveWorkers M.outside I.outside W.outside s start ours
        theirs w.0 w.1 w.2) }
    ensures back { IfErr result (λ given. given ≡ given_of start) }
{
    let Start {
        edition,
        sources,
        cycles,
        form,
        media,
        input,
        master,
    } = start;
    let process = match Process::new(alloc, &edition, cycles, input, form, master, ours) {
        Ok(process) => process,
        Err((input, master)) => return Err((media, input, master)),
    };
    match Butler::new(alloc, media, sources, &edition, cycles, theirs) {
        Ok(butler) => Ok((edition, process, butler)),
        Err(media) => {
            let (input, master) = given(process);
            Err((media, input, master))
        }
    }
}

// What a process was given.
fn given<I: Source, W: Sink>(process: Process<I, W>) -> (I, W)
    ensures { result ≡ (process.input.input, process.master.sink) }
{
    let ProcessParts {
        input,
        master,
        journal: _,
        ends: _,
    } = process.parts();
    (input, master)
}
