//! Control lines and what is answered to each, and the canonical lines of edits.
mod forms;
mod printed;
mod refused;
mod spoken;

use crate::row::row_holds;
use arrayvec::ArrayString;
use edit_script::{Command, parse, text_of};
use forms::FORMS;
use refused::REFUSED;
use spoken::SPOKEN;
use std::fmt::{self, Write};

// What a line says: the canonical line of an edit, a wait or a sync, nothing, or the refusal.
fn answer(line: &[u8]) -> Result<ArrayString<160>, fmt::Error> {
    let mut text = ArrayString::new();
    match parse(line) {
        Ok(Command::Do(edit)) => text_of(&edit, &mut text),
        Ok(Command::Wait(n)) => write!(text, "wait {n}")?,
        Ok(Command::Sync) => text.write_str("sync")?,
        Ok(Command::Nothing) => {}
        Err(why) => write!(text, "refused {why}")?,
    }
    Ok(text)
}

fn is_answered(line: &[u8], want: &str) -> bool {
    answer(line).is_ok_and(|text| text.as_str() == want)
}

#[test]
fn lines_say_what_the_table_says(rt: HostRuntime) {
    for (at, (line, want)) in SPOKEN.iter().enumerate() {
        row_holds(&rt, at, is_answered(line, want));
    }
}

#[test]
fn the_first_refusal_is_given(rt: HostRuntime) {
    for (at, (line, want)) in REFUSED.iter().enumerate() {
        row_holds(&rt, at, is_answered(line, want));
    }
    for (at, (line, want)) in FORMS.iter().enumerate() {
        row_holds(&rt, at, is_answered(line, want));
    }
}

#[test]
fn a_line_has_at_most_4096_bytes(rt: HostRuntime) {
    let mut line = [b' '; 4_097];
    row_holds(&rt, 0, is_answered(&line[..4_096], ""));
    row_holds(&rt, 1, is_answered(&line, "refused long"));
    line[..4].copy_from_slice(b"roll");
    row_holds(&rt, 2, is_answered(&line[..4_096], "roll"));
    row_holds(&rt, 3, is_answered(&line, "refused long"));
    line[4_095] = 0x80;
    row_holds(&rt, 4, is_answered(&line[..4_096], "refused text"));
    row_holds(&rt, 5, is_answered(&line, "refused long"));
    line[0] = b'#';
    row_holds(&rt, 6, is_answered(&line[..4_095], ""));
    row_holds(&rt, 7, is_answered(&line, "refused long"));
}

#[test]
fn all_words_of_a_line_are_counted(rt: HostRuntime) {
    let mut line = [b' '; 4_096];
    line[..4].copy_from_slice(b"roll");
    for at in 4..4_096 {
        if at % 2 == 1 {
            line[at] = b'a';
        }
    }
    row_holds(&rt, 0, is_answered(&line, "refused words 2047"));
}
