//! Reports that are read, and the first line of damaged ones that no report has there: rows worked out by hand.
mod rows;

use cycle_journal::write_report;
use report_reader::{Report, ReportRefusal, read_report};
use rows::{BASE, DOUBLED, REPLACED, SOUND};
use ses_io::MemSink;
use std::alloc::Global;
use std::process::Abort;

fn row_holds<R: Abort>(rt: &R, at: usize, right: bool) {
    assert!(rt; right, "row {at}");
}

fn push_line(text: &mut Vec<u8>, line: &str) -> Option<()> {
    text.extend_from_slice(line.as_bytes()).ok()?;
    text.push(b'\n').ok()
}

// The lines of a report, of which the one at a place stands otherwise.
fn with_line(alloc: Global, place: usize, line: &str) -> Option<Vec<u8>> {
    let mut text = Vec::new(alloc);
    for (at, own) in BASE.iter().enumerate() {
        push_line(&mut text, if at == place { line } else { own })?;
    }
    Some(text)
}

// The same, of which the one at a place stands twice.
fn with_double(alloc: Global, place: usize) -> Option<Vec<u8>> {
    let mut text = Vec::new(alloc);
    for (at, line) in BASE.iter().enumerate() {
        push_line(&mut text, line)?;
        if at == place {
            push_line(&mut text, line)?;
        }
    }
    Some(text)
}

// So many lines from the first on, each with this behind it.
fn first_lines(alloc: Global, count: usize, end: &str) -> Option<Vec<u8>> {
    let mut text = Vec::new(alloc);
    for line in BASE.iter().take(count) {
        text.extend_from_slice(line.as_bytes()).ok()?;
        text.extend_from_slice(end.as_bytes()).ok()?;
    }
    Some(text)
}

// Whether this line is told as the first that no report has there.
fn is_bad(alloc: Global, text: &[u8], line: u64) -> bool {
    matches!(read_report(alloc, text), Err(ReportRefusal::BadReport(n)) if n == line)
}

fn read(alloc: Global, text: &[u8]) -> Option<Report> {
    read_report(alloc, text).ok()
}

// Whether what is read begins at this line, and is written as these bytes again.
fn is_read(alloc: Global, text: &[u8], first_line: u64, again: &[u8]) -> Option<bool> {
    let report = read(alloc, text)?;
    let mut out = MemSink::new(alloc, Vec::new(alloc));
    let written = write_report(&mut out, &report.head, &report.edits, &report.journal);
    Some(written.is_ok() && out.bytes() == again && report.first_line == first_line)
}

#[test]
fn a_damaged_line_is_told(rt: HostRuntime) {
    for (at, (place, line, bad)) in REPLACED.iter().enumerate() {
        let right = with_line(rt.alloc(), *place, line).is_some_and(|text| is_bad(
            rt.alloc(),
            text.as_slice(),
            *bad,
        ));
        row_holds(&rt, at, right);
    }
}

#[test]
fn a_doubled_line_is_told(rt: HostRuntime) {
    for (place, bad) in DOUBLED.iter().enumerate() {
        let right = with_double(rt.alloc(), place).is_some_and(|text| is_bad(
            rt.alloc(),
            text.as_slice(),
            *bad,
        ));
        row_holds(&rt, place, right);
    }
}

#[test]
fn a_file_that_ends_too_soon_is_told(rt: HostRuntime) {
    for count in 0..7u64 {
        let right = first_lines(rt.alloc(), count as usize, "\n").is_some_and(|text| is_bad(
            rt.alloc(),
            text.as_slice(),
            count.saturating_add(1),
        ));
        row_holds(&rt, count as usize, right);
    }
    let unended = first_lines(rt.alloc(), 7, "\n").is_some_and(|text| {
        let all = text.as_slice();
        is_bad(rt.alloc(), &all[..all.len().saturating_sub(1)], 7)
    });
    row_holds(&rt, 7, unended);
    let returns = first_lines(rt.alloc(), 7, "\r\n").is_some_and(|text| is_bad(
        rt.alloc(),
        text.as_slice(),
        8,
    ));
    row_holds(&rt, 8, returns);
}

#[test]
fn a_sound_line_is_read(rt: HostRuntime) {
    for (at, (place, line)) in SOUND.iter().enumerate() {
        let right = with_line(rt.alloc(), *place, line).is_some_and(|text| {
            is_read(rt.alloc(), text.as_slice(), 1, text.as_slice()) == Some(true)
        });
        row_holds(&rt, at, right);
    }
}

// Whether a report is found between other lines.
fn is_found(alloc: Global) -> Option<bool> {
    let own = first_lines(alloc, 7, "\n")?;
    let mut text = Vec::new(alloc);
    push_line(&mut text, "ok 1")?;
    push_line(&mut text, "report 11")?;
    text.extend_from_slice(own.as_slice()).ok()?;
    push_line(&mut text, "report 1")?;
    text.extend_from_slice(b"error read-fault").ok()?;
    is_read(alloc, text.as_slice(), 3, own.as_slice())
}

#[test]
fn what_stands_round_a_report_is_skipped(rt: HostRuntime) {
    row_holds(&rt, 0, is_found(rt.alloc()) == Some(true));
}
