//! `verify`: the report and the master of a finished run are held against its session, and out gets how many entries it has.
ghost use Rattle.std.specs.Prelude.{◌≡◌, Some, IfOk, string_bytes};
ghost use Rattle.ses_io.specs.Outside.{OnlyReads};
ghost use Rattle.command_words.specs.Spoken.{verify_view};
ghost use Rattle.session_run.specs.Tasks.{Verifies};
ghost use Rattle.session_run.specs.Status.{IsOfVerify, ReadsFailed, WritesFailed};
ghost use Rattle.session_run.specs.Verified.{EndsAsVerified, IsVerifiedText, verified_text};
ghost use Rattle.session_run.specs.Replied.{WritesItsOwn};
ghost use Rattle.session_run.specs.Carried.{CarriesOut};

use crate::writing::write_text;
use command_words::Verify;
use cycle_journal::Status;
use ses_io::{Media, Sink, Source, World};
use session_play::{Outcome, unplayed};
use session_verify::what_agrees_is_answered;
use std::alloc::{AllocError, Global};

// The line that says how many entries stand.
fn verified(alloc: Global, entries: u32) -> Result<String, AllocError>
    ensures { IfOk result (λ t. string_bytes t ≡ verified_text entries) }
{
    format!(in alloc; "verified {entries}\n")
}

// Holds report and master against the session, and writes the line to out; the status says what came of it.
fn hold<M: Media, O: Sink>(alloc: Global, asked: &Verify<'_>, media: &mut M, out: &mut O) -> Status
    ensures ends { M.outside.tells
        → EndsAsVerified (M.outside.files media.old) (verify_view asked.now) result }
    ensures status { IsOfVerify result }
    ensures written { WritesItsOwn O.outside (IsVerifiedText M.outside media.old
        (verify_view asked.now)) out.old out.new result }
    ensures reads { ReadsFailed (M.outside.read_faults media.old)
        (M.outside.read_faults media.new) result }
    ensures writes { WritesFailed Status.OutFault (O.outside.faults out.old)
        (O.outside.faults out.new) result }
    ensures only_reads { OnlyReads M.outside media.old media.new }
{
    what_agrees_is_answered();
    let entries = match session_verify::verify(alloc, asked, media) {
        Ok(entries) => entries,
        Err(status) => return status,
    };
    let Ok(text) = verified(alloc, entries) else {
        return Status::NoMemory;
    };
    write_text(out, text.as_bytes())
}

/// Holds report and master of a finished run against its session.
pub(crate) fn verify<M: Media, I: Source, C: Source, W: Sink, O: Sink>(
    alloc: Global,
    asked: &Verify<'_>,
    world: World<M, I, C, W, O>,
) -> Outcome<M, I, C, W, O>
    ensures { CarriesOut M.outside I.outside C.outside W.outside O.outside world
        (Some (Verifies (verify_view asked.now))) result }
{
    let mut world = world;
    let status = hold(alloc, asked, &mut world.media, &mut world.out);
    unplayed(alloc, status, world)
}
