//! What a run begins with, from the files of its session.
ghost use Rattle.std.specs.Prelude.{◌≡◌, ◌++◌, codes, None, IfSome};
ghost use Rattle.ses_io.specs.Files.{HasNameUnder};
ghost use Rattle.ses_io.specs.Outside.{OnlyReads};
ghost use Rattle.session_opening.specs.Answers.{HasHeads, IsLoaded};
ghost use Rattle.run_end.specs.Beginning.{MayRun};

use crate::case::SESSION;
use input_head::open_input;
use run_world::Opened;
use ses_io::{Media, Sink, Source, World};
use session_opening::{Loaded, has_takes, open};
use std::alloc::Global;

// The session with its sources, where no take is there yet.
fn loaded<M: Media>(alloc: Global, media: &mut M) -> Option<Loaded>
    ensures loaded { IfSome result IsLoaded }
    ensures heads { M.outside.tells → IfSome result (HasHeads (M.outside.files media.old)) }
    ensures fresh { M.outside.tells → IfSome result (λ l. ¬ (HasNameUnder
        (M.outside.files media.old) (l.edition.session.takes ++ codes "-"))) }
    ensures only_reads { OnlyReads M.outside media.old media.new }
{
    let loaded = open(alloc, media, SESSION).ok()?;
    match has_takes(media, loaded.edition.session()) {
        Ok(false) => Some(loaded),
        Ok(true) | Err(_) => None,
    }
}

/// What a run of 1 to 100,000 cycles begins with; None where the world can't be opened.
pub fn opened<M: Media, I: Source, C: Source, W: Sink, O: Sink>(
    alloc: Global,
    world: World<M, I, C, W, O>,
    cycles: u32,
) -> Option<Opened<M, I, C, W, O>>
    ensures may { IfSome result (MayRun M.outside) }
    ensures reads { IfSome result (λ o. o.script ≡ None) }
{
    if cycles == 0 || cycles > 100_000 {
        return None;
    }
    let mut world = world;
    let Loaded { edition, sources } = loaded(alloc, &mut world.media)?;
    let Ok(form) = open_input(&mut world.input, edition.session()) else {
        return None;
    };
    Some(Opened {
        world,
        edition,
        sources,
        form,
        cycles,
        script: None,
    })
}
