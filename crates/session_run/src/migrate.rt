//! `migrate`: the session of a file is written to out as a text of version 2.
ghost use Rattle.std.specs.Prelude.{Some};
ghost use Rattle.ses_io.specs.Outside.{OnlyReads};
ghost use Rattle.session_opening.specs.Plan.{read_session};
ghost use Rattle.session_run.specs.Tasks.{Migrates};
ghost use Rattle.session_run.specs.Status.{EndsWith, IsOfMigrate, ReadsFailed, WritesFailed};
ghost use Rattle.session_run.specs.Migrated.{IsMigratedText};
ghost use Rattle.session_run.specs.Replied.{WritesItsOwn};
ghost use Rattle.session_run.specs.Carried.{CarriesOut};

use crate::writing::write_text;
use cycle_journal::Status;
use ses_io::{Media, Sink, Source, World};
use session_opening::{Unopened, read_session, status_of};
use session_play::{Outcome, unplayed};
use session_text::text_of_session;
use std::alloc::Global;

// Writes the session of the file to out; the status says what came of it.
fn rewrite<M: Media, O: Sink>(alloc: Global, media: &mut M, out: &mut O, name: &str) -> Status
    ensures ends { M.outside.tells
        → EndsWith Status.OutFault (read_session (M.outside.files media.old name.now)) result }
    ensures status { IsOfMigrate result }
    ensures written { WritesItsOwn O.outside (IsMigratedText M.outside media.old name.now)
        out.old out.new result }
    ensures reads { ReadsFailed (M.outside.read_faults media.old)
        (M.outside.read_faults media.new) result }
    ensures writes { WritesFailed Status.OutFault (O.outside.faults out.old)
        (O.outside.faults out.new) result }
    ensures only_reads { OnlyReads M.outside media.old media.new }
{
    let session = match read_session(alloc, media, name) {
        Ok(session) => session,
        Err(why) => return status_of(Unopened::from(why)),
    };
    let Ok(text) = text_of_session(alloc, &session) else {
        return Status::NoMemory;
    };
    write_text(out, text.as_slice())
}

/// Reads the session of the file and writes it to out.
pub(crate) fn migrate<M: Media, I: Source, C: Source, W: Sink, O: Sink>(
    alloc: Global,
    name: &str,
    world: World<M, I, C, W, O>,
) -> Outcome<M, I, C, W, O>
    ensures { CarriesOut M.outside I.outside C.outside W.outside O.outside world
        (Some (Migrates name.now)) result }
{
    let mut world = world;
    let status = rewrite(alloc, &mut world.media, &mut world.out, name);
    unplayed(alloc, status, world)
}
