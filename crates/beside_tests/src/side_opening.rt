//! What a run begins with, from the files of its session.
ghost use Rattle.std.specs.Prelude.{◌≡◌, ◌++◌, ◌≤◌, None, codes, IfSome};
ghost use Rattle.ses_io.specs.Files.{HasNameUnder};
ghost use Rattle.ses_io.specs.Outside.{OnlyReads};
ghost use Rattle.session_opening.specs.Answers.{HasHeads, IsLoaded};
ghost use Rattle.butler.specs.Takes.{MayRecord};
ghost use Rattle.worker_pair.specs.Starts.{MayBegin};
ghost use Rattle.run_end.specs.Beginning.{MayRun};

use crate::side_files::SESSION;
use input_head::open_input;
use run_world::Opened;
use ses_io::{Media, Sink, Source, World};
use session_opening::{Loaded, has_takes, open};
use std::alloc::Global;
use worker_pair::Start;

// The session with its sources, where no take is there yet.
fn loaded<M: Media>(alloc: Global, media: &mut M) -> Option<Loaded>
    ensures loaded { IfSome result IsLoaded }
    ensures heads { M.outside.tells → IfSome result (HasHeads (M.outside.files media.old)) }
    ensures fresh { M.outside.tells → IfSome result (λ l. ¬ (HasNameUnder
        (M.outside.files media.old) (l.edition.session.takes ++ codes "-"))) }
    ensures only_reads { OnlyReads M.outside media.old media.new }
{
    let loaded = open(alloc, media, SESSION).ok()?;
    match has_takes(media, loaded.edition.session()) {
        Ok(false) => Some(loaded),
        Ok(true) | Err(_) => None,
    }
}

/// What a run of so many cycles begins with, where all of it is opened.
pub(crate) fn start_of<M: Media, I: Source, W: Sink>(
    alloc: Global,
    media: M,
    input: I,
    master: W,
    cycles: u32,
) -> Option<Start<M, I, W>>
    requires some { 1 ≤ cycles }
    requires few { cycles ≤ 100000 }
    ensures may { IfSome result (λ s. MayBegin s.edition.session s) }
    ensures record { M.outside.tells → IfSome result (λ s. MayRecord s.edition.session
        (M.outside.files s.media) s.sources.opened) }
{
    let mut media = media;
    let mut input = input;
    let Loaded { edition, sources } = loaded(alloc, &mut media)?;
    let form = open_input(&mut input, edition.session()).ok()?;
    Some(Start {
        edition,
        sources,
        cycles,
        form,
        media,
        input,
        master,
    })
}

/// The same with control, whose lines are read.
pub(crate) fn with_control<M: Media, I: Source, C: Source, W: Sink, O: Sink>(
    start: Start<M, I, W>,
    control: C,
    out: O,
) -> Opened<M, I, C, W, O>
    requires may { MayBegin start.edition.session start }
    requires record { M.outside.tells → MayRecord start.edition.session
        (M.outside.files start.media) start.sources.opened }
    ensures may { MayRun M.outside result }
    ensures reads { result.script ≡ None }
{
    let Start {
        edition,
        sources,
        cycles,
        form,
        media,
        input,
        master,
    } = start;
    Opened {
        world: World {
            media,
            input,
            control,
            master,
            out,
        },
        edition,
        sources,
        form,
        cycles,
        script: None,
    }
}
