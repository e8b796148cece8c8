//! A report is read and held, line by line, against its session and the master.
ghost use Rattle.std.specs.Prelude.{◌≡◌, ◌<◌, ◌^◌, IfOk};
ghost use Rattle.ses_io.specs.Files.{content};
ghost use Rattle.ses_io.specs.Faults.{HasCause};
ghost use Rattle.ses_io.specs.Outside.{OnlyReads};
ghost use Rattle.session_model.specs.Valid.{IsValid};
ghost use Rattle.audio_source.specs.Opened.{IsListed};
ghost use Rattle.audio_source.specs.Told.{source_sound};
ghost use Rattle.track_render.specs.Reading.{IsReadOn};
ghost use Rattle.heard_blocks.specs.Reading.{IsTold};
ghost use Rattle.report_reader.specs.Reading.{reported_of};
ghost use Rattle.report_check.specs.Verdict.{Finds, Verified, reads};
ghost use Rattle.report_check.specs.Reading.{IsRead, IsReadIn};

use crate::lines::fallen_line;
use crate::reading::bytes_in;
use crate::unverified::Unverified;
use audio_source::Sources;
use heard_blocks::HeardFault;
use report_reader::{Report, ReportRefusal, read_report};
use ses_io::Media;
use session_model::Session;
use std::alloc::Global;

// The report that a file holds.
fn report_in<M: Media>(alloc: Global, media: &mut M, name: &str) -> Result<Report, Unverified>
    ensures told { M.outside.tells
        → IsReadIn (content (M.outside.files media.old) name.now) result }
    ensures any { IfOk result IsRead }
    ensures only_reads { OnlyReads M.outside media.old media.new }
    ensures cause { HasCause (M.outside.read_faults media.old)
        (M.outside.read_faults media.new) (reads result) }
{
    let bytes = bytes_in(alloc, media, name)?;
    match read_report(alloc, bytes.as_slice()) {
        Ok(report) => Ok(report),
        Err(ReportRefusal::BadReport(n)) => Err(Unverified::BadReport(n)),
        Err(ReportRefusal::NoMemory) => Err(Unverified::Unread(HeardFault::NoMemory)),
    }
}

// How many entries a report has that was read, where all its lines stand.
fn check_report<M: Media>(
    alloc: Global,
    media: &mut M,
    s: &Session,
    sources: &mut Sources,
    report: Report,
    master: &str,
) -> Result<u32, Unverified>
    requires valid { IsValid s.now }
    requires read { IsRead report }
    requires sources { IsListed s.now.rate s.now.sources.items sources.old.opened }
    ensures told { IsTold M.outside media.old sources.old → Finds s.now
        (source_sound (M.outside.files media.old) sources.old.opened)
        (content (M.outside.files media.old) master.now)
        report.first_line (reported_of report) result }
    ensures read { IsReadOn M.outside media.old media.new sources.old sources.new
        (reads result) }
{
    let Report {
        head,
        edits,
        journal,
        first_line,
    } = report;
    let entries = journal.entries();
    match fallen_line(alloc, sources, media, s, &head, edits, entries, master) {
        Ok(Some(k)) => Err(Unverified::Refuted(first_line + 1 + k)),
        Ok(None) => Ok(entries.len() as u32),
        Err(why) => Err(Unverified::Unread(why)),
    }
}

/// How many entries the report has, where all its lines stand: the form is the session's and the master's, its edits are
/// accepted in order with none behind a quit, its journal is lawful, and the master is the offline rendering of it.
/// An absent file counts as an empty one. It takes the time of the entries, and of rendering their blocks.
pub fn check<M: Media>(
    alloc: Global,
    media: &mut M,
    s: &Session,
    sources: &mut Sources,
    report: &str,
    master: &str,
) -> Result<u32, Unverified>
    requires valid { IsValid s.now }
    requires sources { IsListed s.now.rate s.now.sources.items sources.old.opened }
    ensures told { IsTold M.outside media.old sources.old → Verified s.now
        (source_sound (M.outside.files media.old) sources.old.opened)
        (content (M.outside.files media.old) report.now)
        (content (M.outside.files media.old) master.now) result }
    ensures read { IsReadOn M.outside media.old media.new sources.old sources.new
        (reads result) }
{
    let report = report_in(alloc, media, report)?;
    check_report(alloc, media, s, sources, report, master)
}
