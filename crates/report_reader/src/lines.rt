//! What one line of a report says. A line is read to its end.
ghost use Rattle.std.specs.Prelude.{◌≡◌};
ghost use Rattle.std.specs.Option.{option_map};
ghost use Rattle.cycle_journal.specs.JournalView.{seen_entry};
ghost use Rattle.edit_script.specs.Reading.{said};
ghost use Rattle.report_reader.specs.Lines as spec;

use crate::fields::{after, numbered};
use crate::notes::{notes, state};
use arrayvec::ArrayString;
use cycle_journal::{Entry, ReportHead};
use edit_script::{Command, parse, text_of};
use ses_units::Bits;
use session_model::Edit;

fn bits(count: u64) -> Option<Bits>
    ensures { result ≡ spec.bits_in count }
{
    match count {
        16 => Some(Bits::B16),
        24 => Some(Bits::B24),
        _ => None,
    }
}

/// The form of a run.
#[tactic(auto, unfolding(crate::specs::Lines::format_in))]
pub(crate) fn format(line: &[u8]) -> Option<ReportHead>
    ensures { result ≡ spec.format_in line.now }
{
    let (rate, rest) = numbered(b"format ", 8_000, 192_000, line)?;
    let (count, rest) = numbered(b" ", 16, 24, rest)?;
    let bits = bits(count)?;
    let (channels, rest) = numbered(b" ", 1, 2, rest)?;
    let (block, rest) = numbered(b" ", 1, 4_096, rest)?;
    let (cycles, rest) = numbered(b" ", 1, 100_000, rest)?;
    let head = ReportHead {
        rate: rate as u32,
        bits,
        channels: channels as u16,
        block: block as u32,
        cycles: cycles as u32,
    };
    rest.is_empty().then_some(head)
}

// The edit that a text is the canonical line of.
fn canonical(text: &[u8]) -> Option<Edit>
    ensures { result ≡ spec.canonical text.now (said text.now) }
{
    match parse(text) {
        Ok(Command::Do(edit)) => {
            let mut line = ArrayString::new();
            text_of(&edit, &mut line);
            if line.as_str().as_bytes() == text {
                Some(edit)
            } else {
                None
            }
        }
        Ok(Command::Wait(_) | Command::Sync | Command::Nothing) | Err(_) => None,
    }
}

/// The edit of this number.
#[tactic(auto, unfolding(crate::specs::Lines::edit_in))]
pub(crate) fn edit(k: u64, line: &[u8]) -> Option<Edit>
    ensures { result ≡ spec.edit_in k line.now }
{
    let (_, rest) = numbered(b"edit ", k, k, line)?;
    canonical(after(b" ", rest)?)
}

/// The entry of this number.
#[tactic(auto, unfolding(crate::specs::Lines::entry_in))]
pub(crate) fn entry(c: u64, line: &[u8]) -> Option<Entry>
    ensures { option_map seen_entry result ≡ spec.entry_in c line.now }
{
    let (_, rest) = numbered(b"cycle ", c, c, line)?;
    let (edition, rest) = numbered(b" ", 0, 10_000, rest)?;
    let (settled, rest) = numbered(b" ", 0, 10_000, rest)?;
    let (state, rest) = state(after(b" ", rest)?)?;
    Some(Entry {
        edition: edition as u32,
        settled: settled as u32,
        state,
        notes: notes(rest)?,
    })
}

/// Whether a line is the last, of so many entries.
#[tactic(auto, unfolding(crate::specs::Lines::is_end))]
pub(crate) fn is_end(entries: u64, line: &[u8]) -> bool
    ensures { result ≡ spec.is_end entries line.now }
{
    match numbered(b"end ", entries, entries, line) {
        Some((_, rest)) => rest.is_empty(),
        None => false,
    }
}
