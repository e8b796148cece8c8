//! Takes that are flushed block by block and finished, with the bytes of their files.
mod rows;

use crate::bench::{Ended, TakeBench, row_holds};
use crate::media::QuietMedia;
use rows::ROWS;
pub(crate) use rows::{ONE_HAS_FAILED, ONE_IS_CUT, Row, THIRD_IS_LOST};
use ses_io::MemMedia;
use std::alloc::Global;

// What another file of the media holds.
const OTHER: [u8; 3] = [7, 8, 9];

// Whether the files are as the row says, and another one as it was.
fn has_files(media: &QuietMedia, row: &Row) -> bool {
    for (name, bytes) in row.files {
        if media.held(name) != *bytes {
            return false;
        }
    }
    media.held("a.wav") == Some(OTHER.as_slice())
}

// Whether a run over a media that takes at most so many bytes at once leaves those files.
fn is_right(alloc: Global, row: &Row, most: usize) -> Option<bool> {
    let mut files = MemMedia::new(alloc);
    files.put("a.wav", OTHER.to_vec(alloc).ok()?).ok()?;
    let mut bench = TakeBench::new(alloc, row.run.session, QuietMedia::new(files, most))?;
    let ended = bench.carry_out(alloc, &row.run)?;
    Some(ended == Ended::Whole && has_files(bench.media(), row))
}

#[test]
fn each_run_leaves_the_files_of_its_row(rt: HostRuntime) {
    for (at, row) in ROWS.iter().enumerate() {
        for most in [usize::MAX, 5, 1] {
            row_holds(&rt, at, is_right(rt.alloc(), row, most) == Some(true));
        }
    }
}
