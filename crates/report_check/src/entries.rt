//! The lines of entries, one after the other, and the master behind them.
ghost use Rattle.std.specs.Prelude.{◌≡◌, ◌+◌, ◌<◌, ◌≤◌, [], length, IfOk, IfSome};
ghost use Rattle.std.specs.Option.{option_map};
ghost use Rattle.ses_io.specs.Faults.{HasCause};
ghost use Rattle.ses_io.specs.Files.{content};
ghost use Rattle.ses_io.specs.Outside.{OnlyReads};
ghost use Rattle.session_model.specs.Valid.{IsValid};
ghost use Rattle.audio_source.specs.Opened.{IsListed};
ghost use Rattle.track_render.specs.Reading.{IsReadOn};
ghost use Rattle.cycle_journal.specs.JournalView.{seen_entries};
ghost use Rattle.edit_history.specs.History.{IsHistoryOf};
ghost use Rattle.heard_blocks.specs.Reading.{IsTold, reading};
ghost use Rattle.master_blocks.specs.Bytes.{silent_bytes};
ghost use Rattle.report_verdict.specs.Lines.{entries_stand, entries_behind, first_fall};
ghost use Rattle.report_verdict.specs.Master as file;
ghost use Rattle.report_check.specs.Checking.{HasChecked, samples_read};

use crate::checker::Checker;
use crate::reading::zeros;
use audio_source::Sources;
use cycle_journal::Entry;
use edit_history::EditHistory;
use heard_blocks::HeardFault;
use master_file::{data_long, is_silent};
use ses_io::{Media, NoMemory};
use session_model::Session;
use std::alloc::Global;

impl Checker {
    // The first entry that doesn't stand, from 0; None where all do.
    fn fallen<M: Media>(
        &mut self,
        alloc: Global,
        sources: &mut Sources,
        media: &mut M,
        s: &Session,
        history: &EditHistory,
        entries: &[Entry],
        master: &str,
    ) -> Result<Option<u32>, HeardFault>
        requires valid { IsValid s.now }
        requires history { IsHistoryOf s.now history.now }
        requires checked { HasChecked s.now history.now.edits [] self.old }
        requires few { length entries.now ≤ 100000 }
        requires sources { IsListed s.now.rate s.now.sources.items sources.old.opened }
        ensures told { IsTold M.outside media.old sources.old → IfOk result (λ c. c
            ≡ first_fall (entries_stand s.now history.now.edits (samples_read
            (M.outside.files media.old) sources.old s.now history.now.edits)
            (content (M.outside.files media.old) master.now) [] (seen_entries entries.now))) }
        ensures most { IfOk result (λ c. IfSome c (λ n. n ≤ length entries.now)) }
        ensures read { IsReadOn M.outside media.old media.new sources.old sources.new
            (reading result) }
    {
        for c in 0..entries.len() {
            let (done, entry) = (&entries[..c], &entries[c]);
            if !self.entry_stands(alloc, sources, media, s, history, done, entry, master)? {
                return Ok(Some(c as u32));
            }
        }
        Ok(None)
    }
}

// The first entry of a report that doesn't stand, from 0; None where all do.
fn fallen_entry<M: Media>(
    alloc: Global,
    sources: &mut Sources,
    media: &mut M,
    s: &Session,
    history: &EditHistory,
    entries: &[Entry],
    master: &str,
) -> Result<Option<u32>, HeardFault>
    requires valid { IsValid s.now }
    requires history { IsHistoryOf s.now history.now }
    requires few { length entries.now ≤ 100000 }
    requires sources { IsListed s.now.rate s.now.sources.items sources.old.opened }
    ensures told { IsTold M.outside media.old sources.old → IfOk result (λ c. c
        ≡ first_fall (entries_stand s.now history.now.edits (samples_read
        (M.outside.files media.old) sources.old s.now history.now.edits)
        (content (M.outside.files media.old) master.now) [] (seen_entries entries.now))) }
    ensures most { IfOk result (λ c. IfSome c (λ n. n ≤ length entries.now)) }
    ensures read { IsReadOn M.outside media.old media.new sources.old sources.new
        (reading result) }
{
    let mut checker = Checker::new(alloc, s)?;
    checker.fallen(alloc, sources, media, s, history, entries, master)
}

// A block of silence in the master.
fn silence(alloc: Global, s: &Session) -> Result<Vec<u8>, NoMemory>
    requires { IsValid s.now }
    ensures { IfOk result (λ v. v.items ≡ silent_bytes s.now 1) }
{
    zeros(alloc, data_long(s, 1) as usize)
}

// Whether the master is silent from a block on.
fn is_silent_from<M: Media>(
    alloc: Global,
    media: &mut M,
    s: &Session,
    from: u32,
    cycles: u32,
    master: &str,
) -> Result<bool, HeardFault>
    requires valid { IsValid s.now }
    requires order { from ≤ cycles }
    requires few { cycles ≤ 100000 }
    ensures told { M.outside.tells → IfOk result (λ silent. silent
        ≡ file.is_silent_from s.now from cycles
        (content (M.outside.files media.old) master.now)) }
    ensures only_reads { OnlyReads M.outside media.old media.new }
    ensures cause { HasCause (M.outside.read_faults media.old)
        (M.outside.read_faults media.new) (reading result) }
{
    let silence = silence(alloc, s)?;
    let mut room = zeros(alloc, silence.len())?;
    is_silent(
        media,
        master,
        s,
        from,
        cycles,
        silence.as_slice(),
        room.as_mut_slice(),
    )
    .map_err(|_| HeardFault::ReadFault)
}

/// The first line behind those of the edits that doesn't stand, from 0: that of an entry, or the last, which says that
/// nothing sounds behind them. None where all stand.
pub(crate) fn fallen_behind<M: Media>(
    alloc: Global,
    sources: &mut Sources,
    media: &mut M,
    s: &Session,
    history: &EditHistory,
    cycles: u32,
    entries: &[Entry],
    master: &str,
) -> Result<Option<u32>, HeardFault>
    requires valid { IsValid s.now }
    requires history { IsHistoryOf s.now history.now }
    requires order { length entries.now ≤ cycles }
    requires few { cycles ≤ 100000 }
    requires sources { IsListed s.now.rate s.now.sources.items sources.old.opened }
    ensures told { IsTold M.outside media.old sources.old → IfOk result (λ k. k
        ≡ first_fall (entries_behind s.now history.now.edits (samples_read
        (M.outside.files media.old) sources.old s.now history.now.edits)
        (content (M.outside.files media.old) master.now) cycles (seen_entries entries.now))) }
    ensures most { IfOk result (λ k. IfSome k (λ n. n ≤ 100000)) }
    ensures read { IsReadOn M.outside media.old media.new sources.old sources.new
        (reading result) }
{
    let fallen = fallen_entry(alloc, sources, media, s, history, entries, master)?;
    if fallen.is_some() {
        return Ok(fallen);
    }
    let made = entries.len() as u32;
    let silent = is_silent_from(alloc, media, s, made, cycles, master)?;
    Ok(if silent { None } else { Some(made) })
}
