//! What a line behind the format line says.
ghost use Rattle.std.specs.Prelude.{◌≡◌, ◌<◌, ◌≤◌, Some};
ghost use Rattle.std.specs.Option.{option_map};
ghost use Rattle.cycle_journal.specs.JournalView.{seen_entry};
ghost use Rattle.report_reader.specs.Items as spec;

use crate::lines;
use cycle_journal::Entry;
use session_model::Edit;

// The most edits that a report has.
const EDITS: u64 = 10_000;

/// A line behind the format line.
#[derive(Drop)]
pub(crate) enum Item {
    Edit(Edit),
    Entry(Entry),
    /// The report ends.
    End,
}

// Edits count from 1 in their lines.
fn next_edit(edits: u64, entries: u64, line: &[u8]) -> Option<Edit>
    ensures { result ≡ spec.next_edit edits entries line.now }
{
    if entries == 0 && edits < EDITS {
        lines::edit(edits + 1, line)
    } else {
        None
    }
}

// Entries count from 1 in theirs.
fn next_entry(cycles: u64, entries: u64, line: &[u8]) -> Option<Entry>
    ensures { option_map seen_entry result ≡ spec.next_entry cycles entries line.now }
{
    if entries < cycles {
        lines::entry(entries + 1, line)
    } else {
        None
    }
}

/// What a line says behind so many edits and entries of a run of so many cycles.
#[tactic(auto, unfolding(crate::specs::Items::item_in))]
pub(crate) fn next_item(cycles: u64, edits: u64, entries: u64, line: &[u8]) -> Option<Item>
    ensures { option_map spec.seen_item result
        ≡ spec.item_in cycles edits entries line.now }
{
    if let Some(edit) = next_edit(edits, entries, line) {
        return Some(Item::Edit(edit));
    }
    if let Some(entry) = next_entry(cycles, entries, line) {
        return Some(Item::Entry(entry));
    }
    lines::is_end(entries, line).then_some(Item::End)
}
