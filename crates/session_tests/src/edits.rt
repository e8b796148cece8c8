//! Edits by their control lines, and what is answered of each.
mod rows;

use crate::row::row_holds;
use arrayvec::ArrayString;
use edit_script::{Command, parse, read_can_be_said};
use edition_log::{Edition, Refusal};
use rows::{DESK, ROWS};
use session_toml::session_of;
use std::alloc::Global;
use std::fmt::Write;

// Edition 0 of the session.
fn opening(alloc: Global) -> Option<Edition> {
    let session = session_of(alloc, DESK.as_bytes()).ok()?;
    Edition::opening(alloc, session).ok()
}

// What is answered of the edit of a line, where the line is one and an edit may follow.
fn answer(e: &mut Edition, line: &[u8]) -> Option<Result<u32, Refusal>> {
    // Its contract is the law that what is read keeps its forms.
    read_can_be_said();
    match parse(line) {
        Ok(Command::Do(edit)) if !e.ended() && !e.transport().quit => Some(e.apply(&edit)),
        _ => None,
    }
}

// Whether the line is answered in these words.
fn is_answered(e: &mut Edition, line: &[u8], want: &str) -> bool {
    let mut text = ArrayString::<64>::new();
    let written = match answer(e, line) {
        Some(Ok(number)) => write!(text, "ok {number}"),
        Some(Err(why)) => write!(text, "refused {why}"),
        None => return false,
    };
    written.is_ok() && text.as_str() == want
}

// Whether each line of a row is answered as it says, one after the other.
fn are_answered(e: &mut Edition, lines: &[(&str, &str)]) -> bool {
    let mut right = true;
    for (line, want) in lines {
        right = is_answered(e, line.as_bytes(), want) && right;
    }
    right
}

#[test]
fn each_edit_is_answered_as_its_row_says(rt: HostRuntime) {
    for (at, lines) in ROWS.iter().enumerate() {
        let right = opening(rt.alloc()).is_some_and(|mut e| are_answered(&mut e, lines));
        row_holds(&rt, at, right);
    }
}

// Whether lines of this form are accepted for the numbers from the first up to the last, and then refused.
fn fills(e: &mut Edition, before: &str, behind: &str, numbers: (u32, u32), want: &str) -> bool {
    let (first, last) = numbers;
    let mut right = true;
    for n in first..=last {
        let mut line = ArrayString::<64>::new();
        right = write!(line, "{before}{n}{behind}").is_ok() && right;
        right = matches!(answer(e, line.as_str().as_bytes()), Some(Ok(_))) && right;
    }
    let mut line = ArrayString::<64>::new();
    write!(line, "{before}{}{behind}", last.saturating_add(1)).is_ok()
        && is_answered(e, line.as_str().as_bytes(), want)
        && right
}

#[test]
fn a_playlist_has_256_regions_and_a_lane_1024_points(rt: HostRuntime) {
    let regions = opening(rt.alloc()).is_some_and(|mut e| {
        fills(
            &mut e,
            "add t ",
            " a 0 1 0 0",
            (2, 256),
            "refused limit regions 256",
        )
    });
    row_holds(&rt, 0, regions);
    let points = opening(rt.alloc()).is_some_and(|mut e| {
        fills(
            &mut e,
            "point b1 ",
            " 5",
            (1, 1024),
            "refused limit points 1024",
        ) && is_answered(&mut e, b"point b1 1024 6", "ok 1025")
    });
    row_holds(&rt, 1, points);
}
