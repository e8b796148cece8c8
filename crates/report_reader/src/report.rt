//! The report of a run, read line by line.
ghost use Rattle.std.specs.Prelude.{◌≡◌, ℕ, ◌+◌, ◌≤◌, length, IfOk, OnOk, Ok};
ghost use Rattle.std.specs.Option.{option_map};
ghost use Rattle.report_reader.specs.Items.{seen_item, item_in};
ghost use Rattle.report_reader.specs.Reading.{Before, Begun, Within, bare, with_item, reading, lines_of, reported_of, Goes, HasRoom, HasRoomFor, stage_of};
ghost use Rattle.report_reader.specs.Reads.{Reads, TakesAtMost};

use crate::cursor::Lines;
use crate::items::{Item, next_item};
use crate::lines::format;
use cycle_journal::{Journal, ReportHead};
use ses_io::NoMemory;
use session_model::EditList;
use std::alloc::Global;

// The most edits that a report has.
const EDITS: usize = 10_000;

/// A report as it was read.
#[derive(Drop)]
pub struct Report {
    /// The form of the run.
    pub head: ReportHead,
    /// The accepted edits, in order.
    pub edits: EditList,
    /// One entry a cycle.
    pub journal: Journal,
    /// The number of the line `report 1`, from 1.
    pub first_line: u64,
}

/// Why no report is read.
#[derive(Clone, Copy, Debug, PartialEq, Eq)]
pub enum ReportRefusal {
    /// This line, from 1, is the first that no report has there.
    BadReport(u64),
    /// A list got no memory.
    NoMemory,
}

impl From<NoMemory> for ReportRefusal {
    ghost use Rattle.std.specs.Prelude.{◌≡◌};
    ghost use Rattle.report_reader.specs.declared.report.ReportRefusal.TheVariants as why;

    ghost from_gives = { λ _ e. e ≡ why.NoMemory };

    fn from(_error: NoMemory) -> ReportRefusal {
        ReportRefusal::NoMemory
    }
}

impl Report {
    // A report of no edit and no entry, with room for what so many lines may say.
    fn begun(
        alloc: Global,
        head: ReportHead,
        first_line: u64,
        lines: usize,
    ) -> Result<Report, NoMemory>
        ensures bare { IfOk result (λ r. reported_of r ≡ bare head) }
        ensures first { IfOk result (λ r. r.first_line ≡ first_line) }
        ensures room { IfOk result (λ r. HasRoom lines r) }
        ensures memory { IfOk result (λ r. TakesAtMost lines r) }
    {
        Ok(Report {
            head,
            edits: EditList::new(alloc, lines.min(EDITS) as u32)?,
            journal: Journal::new(alloc, lines.min(head.cycles as usize) as u32)?,
            first_line,
        })
    }

    // What the next line says.
    fn said(&self, line: &[u8]) -> Option<Item>
        ensures { let r = reported_of self.now in option_map seen_item result
            ≡ item_in r.head.cycles (length r.edits) (length r.entries) line.now }
    {
        let edits = self.edits.len() as u64;
        let entries = self.journal.entries().len() as u64;
        next_item(u64::from(self.head.cycles), edits, entries, line)
    }

    // Adds what a line says, and answers whether the report goes on.
    fn add(&mut self, item: Item) -> bool
        requires { HasRoomFor (seen_item item) self.old }
        ensures stage { stage_of result self.new
            ≡ with_item self.old.first_line (reported_of self.old) (seen_item item) }
        ensures room { (left : ℕ) → HasRoom (left + 1) self.old → HasRoom left self.new }
        ensures memory { (most : ℕ) → TakesAtMost most self.old → TakesAtMost most self.new }
    {
        match item {
            Item::Edit(edit) => {
                self.edits.push(edit);
                true
            }
            Item::Entry(entry) => {
                self.journal.note(entry);
                true
            }
            Item::End => false,
        }
    }

    // Reads the lines to the last of the report.
    fn read_items(&mut self, lines: &mut Lines) -> Result<(), ReportRefusal>
        requires { HasRoom (length (lines_of lines.old.rest.now)) self.old }
        ensures goes { Goes (λ _. Ok (self.new.first_line, reported_of self.new)) result
            (reading lines.old.number (Within self.old.first_line (reported_of self.old))
            (lines_of lines.old.rest.now)) }
        ensures memory { (most : ℕ) → TakesAtMost most self.old → TakesAtMost most self.new }
    {
        let mut number = lines.number;
        while let Some(line) = lines.next() {
            let Some(item) = self.said(line) else {
                return Err(ReportRefusal::BadReport(number));
            };
            if !self.add(item) {
                return Ok(());
            }
            number = lines.number;
        }
        Err(ReportRefusal::BadReport(number))
    }
}

// Reads the lines to the first of a report, which has this number.
fn skip(lines: &mut Lines) -> Result<u64, ReportRefusal>
    ensures goes { Goes
        (λ first. reading lines.new.number (Begun first) (lines_of lines.new.rest.now))
        result (reading lines.old.number Before (lines_of lines.old.rest.now)) }
    ensures left { OnOk result (length lines.new.rest.now ≤ length lines.old.rest.now) }
{
    let mut number = lines.number;
    while let Some(line) = lines.next() {
        if line == b"report 1".as_slice() {
            return Ok(number);
        }
        number = lines.number;
    }
    Err(ReportRefusal::BadReport(number))
}

fn read_head(lines: &mut Lines) -> Result<ReportHead, ReportRefusal>
    ensures goes { (first : ℕ) → Goes
        (λ head. reading lines.new.number (Within first (bare head)) (lines_of lines.new.rest.now))
        result (reading lines.old.number (Begun first) (lines_of lines.old.rest.now)) }
    ensures left { OnOk result (length lines.new.rest.now ≤ length lines.old.rest.now) }
{
    let number = lines.number;
    match lines.next() {
        Some(line) => format(line).ok_or(ReportRefusal::BadReport(number)),
        None => Err(ReportRefusal::BadReport(number)),
    }
}

fn read(alloc: Global, bytes: &[u8]) -> Result<Report, ReportRefusal>
    ensures goes { Goes (λ r. Ok (r.first_line, reported_of r)) result
        (reading 1 Before (lines_of bytes.now)) }
    ensures memory { IfOk result (λ r. TakesAtMost (length bytes.now) r) }
{
    let mut lines = Lines::of(bytes);
    let first_line = skip(&mut lines)?;
    let head = read_head(&mut lines)?;
    let mut report = Report::begun(alloc, head, first_line, lines.left())?;
    report.read_items(&mut lines)?;
    Ok(report)
}

/// Reads the report that stands among the lines of a file: lines before `report 1` and behind its
/// last line are passed over. It takes memory for the lines that are there, never by the numbers
/// that they say: its lists have room for no more items than the file has bytes.
pub fn read_report(alloc: Global, bytes: &[u8]) -> Result<Report, ReportRefusal>
    ensures reads { Reads bytes.now result }
    ensures memory { IfOk result (λ r. TakesAtMost (length bytes.now) r) }
{
    read(alloc, bytes)
}
