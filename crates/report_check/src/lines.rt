//! All lines of a report, from that of its form on.
ghost use Rattle.std.specs.Prelude.{◌≡◌, ◌≤◌, suc, length, IfOk, IfSome, All, IsTrue};
ghost use Rattle.std.specs.Option.{option_map};
ghost use Rattle.ses_io.specs.Files.{content};
ghost use Rattle.session_model.specs.Valid.{IsValid};
ghost use Rattle.engine_model.specs.Edits.{keeps_forms};
ghost use Rattle.audio_source.specs.Opened.{IsListed};
ghost use Rattle.audio_source.specs.Told.{source_sound};
ghost use Rattle.track_render.specs.Reading.{IsReadOn};
ghost use Rattle.cycle_journal.specs.JournalView.{seen_entries};
ghost use Rattle.cycle_journal.specs.RunReport.{reported};
ghost use Rattle.edit_history.specs.History.{IsHistoryOf};
ghost use Rattle.heard_blocks.specs.Reading.{IsTold, reading};
ghost use Rattle.report_verdict.specs.Lines.{lines_stand, first_fall};
ghost use Rattle.report_check.specs.Checking.{lines_behind, samples_read};

use crate::entries::fallen_behind;
use crate::form::form_stands;
use audio_source::Sources;
use cycle_journal::{Entry, ReportHead};
use edit_history::{EditHistory, HistoryRefusal};
use heard_blocks::HeardFault;
use ses_io::Media;
use session_model::{EditList, Session};
use std::alloc::Global;

// The first line behind those of accepted edits, as it is counted from that of the form.
fn fallen_behind_edits<M: Media>(
    alloc: Global,
    sources: &mut Sources,
    media: &mut M,
    s: &Session,
    history: &EditHistory,
    cycles: u32,
    entries: &[Entry],
    master: &str,
) -> Result<Option<u64>, HeardFault>
    requires valid { IsValid s.now }
    requires history { IsHistoryOf s.now history.now }
    requires order { length entries.now ≤ cycles }
    requires few { cycles ≤ 100000 }
    requires sources { IsListed s.now.rate s.now.sources.items sources.old.opened }
    ensures told { IsTold M.outside media.old sources.old → IfOk result (λ k. k
        ≡ option_map suc (first_fall (lines_behind s.now history.now.edits
        (samples_read (M.outside.files media.old) sources.old s.now history.now.edits)
        (content (M.outside.files media.old) master.now) cycles (seen_entries entries.now)))) }
    ensures most { IfOk result (λ k. IfSome k (λ n. n ≤ 110001)) }
    ensures read { IsReadOn M.outside media.old media.new sources.old sources.new
        (reading result) }
{
    let many = history.edits().len() as u64;
    match fallen_behind(alloc, sources, media, s, history, cycles, entries, master)? {
        Some(k) => Ok(Some(1 + many + u64::from(k))),
        None => Ok(None),
    }
}

// The first line behind that of the form, from which it is counted.
fn fallen_behind_form<M: Media>(
    alloc: Global,
    sources: &mut Sources,
    media: &mut M,
    s: &Session,
    cycles: u32,
    edits: EditList,
    entries: &[Entry],
    master: &str,
) -> Result<Option<u64>, HeardFault>
    requires valid { IsValid s.now }
    requires forms { All (λ e. IsTrue (keeps_forms e)) edits.items }
    requires few_edits { length edits.items ≤ 10000 }
    requires order { length entries.now ≤ cycles }
    requires few { cycles ≤ 100000 }
    requires sources { IsListed s.now.rate s.now.sources.items sources.old.opened }
    ensures told { IsTold M.outside media.old sources.old → IfOk result (λ k. k
        ≡ option_map suc (first_fall (lines_behind s.now edits.items
        (samples_read (M.outside.files media.old) sources.old s.now edits.items)
        (content (M.outside.files media.old) master.now) cycles (seen_entries entries.now)))) }
    ensures most { IfOk result (λ k. IfSome k (λ n. n ≤ 110001)) }
    ensures read { IsReadOn M.outside media.old media.new sources.old sources.new
        (reading result) }
{
    match EditHistory::of(alloc, s, edits) {
        Ok(history) => {
            fallen_behind_edits(alloc, sources, media, s, &history, cycles, entries, master)
        }
        Err(HistoryRefusal::Refused(n)) => Ok(Some(u64::from(n))),
        Err(HistoryRefusal::NoMemory) => Err(HeardFault::NoMemory),
    }
}

/// The first line that doesn't stand, from 0, which is that of the form; None where all stand.
pub(crate) fn fallen_line<M: Media>(
    alloc: Global,
    sources: &mut Sources,
    media: &mut M,
    s: &Session,
    head: &ReportHead,
    edits: EditList,
    entries: &[Entry],
    master: &str,
) -> Result<Option<u64>, HeardFault>
    requires valid { IsValid s.now }
    requires forms { All (λ e. IsTrue (keeps_forms e)) edits.items }
    requires few_edits { length edits.items ≤ 10000 }
    requires order { length entries.now ≤ head.now.cycles }
    requires few { head.now.cycles ≤ 100000 }
    requires sources { IsListed s.now.rate s.now.sources.items sources.old.opened }
    ensures told { IsTold M.outside media.old sources.old → IfOk result (λ k. k
        ≡ first_fall (lines_stand s.now (source_sound (M.outside.files media.old)
        sources.old.opened) (reported head.now edits.items entries.now)
        (content (M.outside.files media.old) master.now))) }
    ensures most { IfOk result (λ k. IfSome k (λ n. n ≤ 110001)) }
    ensures read { IsReadOn M.outside media.old media.new sources.old sources.new
        (reading result) }
{
    if !form_stands(alloc, media, s, head, master)? {
        return Ok(Some(0));
    }
    fallen_behind_form(
        alloc,
        sources,
        media,
        s,
        head.cycles,
        edits,
        entries,
        master,
    )
}
