//! What a run opens before it plays: its session with the sources, the takes that may be in the way, and its input.
ghost use Rattle.std.specs.Prelude.{◌≡◌, IfOk, IfErr, OnErr};
ghost use Rattle.ses_io.specs.Outside.{OnlyReads};
ghost use Rattle.session_model.specs.Valid.{IsValid};
ghost use Rattle.session_play.specs.Request.{request_view};
ghost use Rattle.session_play.specs.Loading.{IsHeard, IsLoadedFor, IsRefused, IsUnheard, LoadCause, HearCause};

use crate::asked::Request;
use cycle_journal::Status;
use input_head::{NoInput, open_input};
use ses_io::{Media, Source};
use session_model::Session;
use session_opening::{Loaded, has_takes, open, status_of};
use std::alloc::Global;
use wav_codec::WavInfo;

/// The session of a run and its sources, where no take is in the way of one that records.
pub(crate) fn load<M: Media>(
    alloc: Global,
    media: &mut M,
    asked: &Request<'_>,
) -> Result<Loaded, Status>
    ensures loaded { IfOk result (IsLoadedFor M.outside media.old (request_view asked.now)) }
    ensures refused { IfErr result (IsRefused M.outside media.old (request_view asked.now)) }
    ensures only_reads { OnlyReads M.outside media.old media.new }
    ensures cause { LoadCause (M.outside.read_faults media.old)
        (M.outside.read_faults media.new) result }
{
    let loaded = match open(alloc, media, asked.session) {
        Ok(loaded) => loaded,
        Err(why) => return Err(status_of(why)),
    };
    if asked.script.is_some() {
        return Ok(loaded);
    }
    let session = loaded.edition.session();
    match has_takes(media, session) {
        Ok(false) => Ok(loaded),
        Ok(true) => Err(Status::TakesExist(session.takes)),
        Err(_) => Err(Status::ReadFault),
    }
}

/// What the head of a run's input says, whose data follow; None where the input is empty.
pub(crate) fn hear<I: Source>(input: &mut I, session: &Session) -> Result<Option<WavInfo>, Status>
    requires { IsValid session.now }
    ensures heard { IfOk result (IsHeard I.outside session.now input.old input.new) }
    ensures unheard { IfErr result (IsUnheard I.outside session.now input.old input.new) }
    ensures cause { HearCause (I.outside.faults input.old) (I.outside.faults input.new) result }
{
    match open_input(input, session) {
        Ok(form) => Ok(form),
        Err(NoInput::Refused(why)) => Err(Status::BadInput(why)),
        Err(NoInput::Fault) => Err(Status::InputFault),
    }
}
