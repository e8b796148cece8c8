//! A session is opened, and a report and a master are held against it.
ghost use Rattle.std.specs.Prelude.{◌≡◌};
ghost use Rattle.ses_io.specs.Outside.{OnlyReads};
ghost use Rattle.ses_io.specs.Files.{content};
ghost use Rattle.session_model.specs.Valid.{IsValid};
ghost use Rattle.audio_source.specs.Opened.{IsListed};
ghost use Rattle.audio_source.specs.Told.{source_sound};
ghost use Rattle.command_words.specs.Spoken.{verify_view};
ghost use Rattle.heard_blocks.specs.Reading.{IsTold};
ghost use Rattle.session_verify.specs.Verified.{IsVerdict, IsAnswer, MayAnswer, Counts};

use audio_source::Sources;
use command_words::Verify;
use cycle_journal::Status;
use heard_blocks::HeardFault;
use report_check::{Unverified, check, verified_where_all_agree};
use ses_io::Media;
use session_model::Session;
use session_opening::{Opened, open_session, status_of};
use std::alloc::Global;

// The same of a session that was opened.
fn verify_opened<M: Media>(
    alloc: Global,
    session: &Session,
    sources: &mut Sources,
    media: &mut M,
    asked: &Verify<'_>,
) -> Result<u32, Status>
    requires valid { IsValid session.now }
    requires listed { IsListed session.now.rate session.now.sources.items sources.old.opened }
    ensures told { IsTold M.outside media.old sources.old → IsVerdict session.now
        (source_sound (M.outside.files media.old) sources.old.opened)
        (content (M.outside.files media.old) asked.now.report.now)
        (content (M.outside.files media.old) asked.now.master.now) result }
    ensures answer { MayAnswer result }
    ensures reads { Counts (M.outside.read_faults media.old)
        (M.outside.read_faults media.new) result }
    ensures only_reads { OnlyReads M.outside media.old media.new }
{
    verified_where_all_agree();
    match check(alloc, media, session, sources, asked.report, asked.master) {
        Ok(entries) => Ok(entries),
        Err(Unverified::BadReport(line)) => Err(Status::BadReport(line)),
        Err(Unverified::Refuted(line)) => Err(Status::Refuted(line)),
        Err(Unverified::Unread(HeardFault::ReadFault)) => Err(Status::ReadFault),
        Err(Unverified::Unread(HeardFault::NoMemory)) => Err(Status::NoMemory),
    }
}

/// How many entries the report has, where report, session and master agree; else the status that says what is wrong first:
/// with the session, its sources, the report or the master, in this order. An absent report or master counts as an empty
/// file.
pub fn verify<M: Media>(alloc: Global, asked: &Verify<'_>, media: &mut M) -> Result<u32, Status>
    ensures told { M.outside.tells
        → IsAnswer (M.outside.files media.old) (verify_view asked.now) result }
    ensures answer { MayAnswer result }
    ensures reads { Counts (M.outside.read_faults media.old)
        (M.outside.read_faults media.new) result }
    ensures only_reads { OnlyReads M.outside media.old media.new }
{
    let Opened {
        session,
        mut sources,
    } = match open_session(alloc, media, asked.session) {
        Ok(opened) => opened,
        Err(why) => return Err(status_of(why)),
    };
    verify_opened(alloc, &session, &mut sources, media, asked)
}
