//! `render`: frames of a session's master are rendered offline, frame by frame, and written to the master.
ghost use Rattle.std.specs.Prelude.{◌≡◌, ◌≢◌, [], Some, Result};
ghost use Rattle.ses_io.specs.Outside.{OnlyReads};
ghost use Rattle.session_model.specs.Valid.{IsValid};
ghost use Rattle.audio_source.specs.Opened.{IsListed, IsOpened};
ghost use Rattle.session_opening.specs.Plan.{session_plan};
ghost use Rattle.command_words.specs.Spoken.{render_view, IsRenderInRange};
ghost use Rattle.session_run.specs.Tasks.{Renders};
ghost use Rattle.session_run.specs.Status.{EndsWith, IsOfRender, ReadsFailed, WritesFailed, status_after};
ghost use Rattle.session_run.specs.Rendered.{GetsTheRender, IsRendered, rendered};
ghost use Rattle.session_run.specs.Carried.{CarriesOut};

use audio_source::{SourceView, Sources};
use command_words::Render;
use cycle_journal::Status;
use master_render::{RenderFault, render_master};
use ses_io::{Media, Sink, Source, World};
use session_model::Session;
use session_opening::{Opened, open_session, status_of};
use session_play::{Outcome, unplayed};
use std::alloc::Global;

// The status of a rendering that ended so.
fn status_after(ended: Result<(), RenderFault>) -> Status
    ensures { result ≡ status_after ended }
{
    match ended {
        Ok(()) => Status::Done,
        Err(RenderFault::ReadFault) => Status::ReadFault,
        Err(RenderFault::MasterFault) => Status::MasterFault,
        Err(RenderFault::NoMemory) => Status::NoMemory,
    }
}

// Renders the session, whose sources are opened, into the master.
fn render_opened<M: Media, W: Sink>(
    alloc: Global,
    session: &Session,
    sources: &mut Sources,
    media: &mut M,
    asked: &Render<'_>,
    master: &mut W,
) -> Status
    requires valid { IsValid session.now }
    requires listed { IsListed session.now.rate session.now.sources.items sources.old.opened }
    requires held { sources.old.held ≡ [] }
    requires range { IsRenderInRange asked.now }
    ensures written { M.outside.tells → IsOpened (M.outside.files media.old) session.now.rate
        session.now.sources.items sources.old.opened → W.outside.tells → IsRendered W.outside
        (rendered (M.outside.files media.old) session.now (render_view asked.now))
        master.old master.new result }
    ensures ends { (r : Result (Unit {0}) RenderFault) × (result ≡ status_after r) }
    ensures reads { ReadsFailed (M.outside.read_faults media.old)
        (M.outside.read_faults media.new) result }
    ensures writes { WritesFailed Status.MasterFault (W.outside.faults master.old)
        (W.outside.faults master.new) result }
    ensures memory { result ≡ Status.NoMemory → master.new ≡ master.old }
    ensures only_reads { OnlyReads M.outside media.old media.new }
{
    let mut view = SourceView { sources, media };
    let ended = render_master(alloc, session, asked.from, asked.frames, &mut view, master);
    status_after(ended)
}

// Opens the session and renders it into the master; the status says what came of it.
fn render_into<M: Media, W: Sink>(
    alloc: Global,
    asked: &Render<'_>,
    media: &mut M,
    master: &mut W,
) -> Status
    requires { IsRenderInRange asked.now }
    ensures ends { M.outside.tells → EndsWith Status.MasterFault
        (session_plan (M.outside.files media.old) asked.now.session.now) result }
    ensures status { IsOfRender result }
    ensures written { M.outside.tells → GetsTheRender M.outside media.old W.outside
        (render_view asked.now) master.old master.new result }
    ensures refused { result ≢ Status.Done → result ≢ Status.MasterFault
        → result ≢ Status.ReadFault → master.new ≡ master.old }
    ensures reads { ReadsFailed (M.outside.read_faults media.old)
        (M.outside.read_faults media.new) result }
    ensures writes { WritesFailed Status.MasterFault (W.outside.faults master.old)
        (W.outside.faults master.new) result }
    ensures only_reads { OnlyReads M.outside media.old media.new }
{
    let Opened {
        session,
        mut sources,
    } = match open_session(alloc, media, asked.session) {
        Ok(opened) => opened,
        Err(why) => return status_of(why),
    };
    render_opened(alloc, &session, &mut sources, media, asked, master)
}

/// Renders what is asked for into the master.
pub(crate) fn render<M: Media, I: Source, C: Source, W: Sink, O: Sink>(
    alloc: Global,
    asked: &Render<'_>,
    world: World<M, I, C, W, O>,
) -> Outcome<M, I, C, W, O>
    requires { IsRenderInRange asked.now }
    ensures { CarriesOut M.outside I.outside C.outside W.outside O.outside world
        (Some (Renders (render_view asked.now))) result }
{
    let mut world = world;
    let status = render_into(alloc, asked, &mut world.media, &mut world.master);
    unplayed(alloc, status, world)
}
