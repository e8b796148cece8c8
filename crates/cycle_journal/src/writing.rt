//! The report of a run, line by line, through a page.
ghost use Rattle.std.specs.Prelude.{◌≡◌};
ghost use Rattle.ses_io.specs.Outside.{Writes};
ghost use Rattle.cycle_journal.specs.JournalView.{seen_entries};
ghost use Rattle.cycle_journal.specs.Page.{Adds};
ghost use Rattle.cycle_journal.specs.Report.{edit_lines, entry_lines, ended, report};
ghost use Rattle.cycle_journal.specs.RunReport.{reported};

use crate::entry::Entry;
use crate::head::ReportHead;
use crate::journal::Journal;
use crate::page::Page;
use ses_io::{Failed, Sink};
use session_model::{Edit, EditList};

// Edits count from 1 in their lines.
fn write_edits<O: Sink>(page: &mut Page, out: &mut O, edits: &[Edit]) -> Result<(), Failed>
    ensures { Adds O.outside (ended (edit_lines 1 edits.now))
        page.old.text.bytes page.new.text.bytes out.old out.new result }
{
    for (i, edit) in edits.iter().enumerate() {
        page.make_room(out)?;
        page.edit(i as u64 + 1, edit);
    }
    Ok(())
}

// Entries count from 1 in theirs.
fn write_entries<O: Sink>(page: &mut Page, out: &mut O, entries: &[Entry]) -> Result<(), Failed>
    ensures { Adds O.outside (ended (entry_lines 1 (seen_entries entries.now)))
        page.old.text.bytes page.new.text.bytes out.old out.new result }
{
    for (i, e) in entries.iter().enumerate() {
        page.make_room(out)?;
        page.entry(i as u64 + 1, e);
    }
    Ok(())
}

/// Writes the report of a run: its form, its accepted edits, and the entries of its journal. It
/// takes no memory. At Failed a front of it is written.
pub fn write_report<O: Sink>(
    out: &mut O,
    head: &ReportHead,
    edits: &EditList,
    j: &Journal,
) -> Result<(), Failed>
    ensures { Writes O.outside (report (reported head.now edits.now.items j.now.items))
        out.old out.new result }
{
    let mut page = Page::new();
    page.head(head);
    write_edits(&mut page, out, edits.as_slice())?;
    let entries = j.entries();
    write_entries(&mut page, out, entries)?;
    page.make_room(out)?;
    page.end(entries.len() as u64);
    page.write_out(out)
}
