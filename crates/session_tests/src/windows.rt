//! Worked rows of a window of two boxes and of one of 256, each with one sample.
mod fixture;
mod rows;

use crate::row::row_holds;
use fixture::WindowFixture;
use piece_item::Kind;
use rows::{ROWS, Row, Step};
use ses_io::NoMemory;
use std::alloc::Global;

// Offers a piece of track 0, and tells whether it was taken in.
fn offers(
    window: &mut WindowFixture,
    alloc: Global,
    at: (u32, u32),
    of: (u32, u32, u32),
    sample: i32,
) -> Result<Option<bool>, NoMemory> {
    let kind = Kind::Piece {
        track: 0,
        generation: of.0,
        seq: of.1,
        touched: of.2,
    };
    window.offer(alloc, at, kind, sample)
}

// Whether the first 256 blocks are taken in, each with its number as its sample.
fn takes_all(window: &mut WindowFixture, alloc: Global) -> Result<bool, NoMemory> {
    let mut all = true;
    for seq in 0..256_u32 {
        all = offers(window, alloc, (0, 0), (0, seq, 0), seq as i32)? == Some(true) && all;
    }
    Ok(all)
}

// Whether each of them is heard.
fn hears_all(window: &WindowFixture) -> bool {
    let mut all = true;
    for seq in 0..256_u32 {
        all = window.heard(0, seq) == Some((0, seq as i32)) && all;
    }
    all
}

// Whether a step is answered as it says.
fn does(window: &mut WindowFixture, alloc: Global, step: &Step) -> Result<bool, NoMemory> {
    match *step {
        Step::Taken(at, of, sample) => Ok(offers(window, alloc, at, of, sample)? == Some(true)),
        Step::Later(at, of, sample) => Ok(offers(window, alloc, at, of, sample)? == Some(false)),
        Step::Mark(at, kind, taken) => Ok(window.offer(alloc, at, kind, 0)? == Some(taken)),
        Step::Heard(generation, seq, touched, sample) => {
            Ok(window.heard(generation, seq) == Some((touched, sample)))
        }
        Step::Silent(generation, seq) => Ok(window.heard(generation, seq).is_none()),
        Step::Settled(generation, next, mark) => {
            Ok(window.settled(generation, next) == Some(mark))
        }
        Step::AllTaken => takes_all(window, alloc),
        Step::AllHeard => Ok(hears_all(window)),
    }
}

fn is_right(alloc: Global, row: &Row) -> Result<bool, NoMemory> {
    let mut window = WindowFixture::new(alloc, row.depth.max(1))?;
    let mut right = window.has_one_sample();
    for step in row.steps {
        right = does(&mut window, alloc, step)? && right;
    }
    Ok(right)
}

#[test]
fn each_step_of_a_window_is_answered_as_it_was_worked_out(rt: HostRuntime) {
    for (at, row) in ROWS.iter().enumerate() {
        row_holds(&rt, at, is_right(rt.alloc(), row) == Ok(true));
    }
}
