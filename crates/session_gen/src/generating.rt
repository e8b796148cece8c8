//! The line of a number.
ghost use Rattle.std.specs.Prelude.{◌≡◌, ◌≤◌, IfOk, string_bytes};
ghost use Rattle.session_gen.specs.Gen.{gen_text};

use crate::export::sum_of_export;
use crate::line::line_of;
use made_session::{regions_each, tracks_made};
use ses_io::NoMemory;
use std::alloc::Global;

/// The line of the number n, 0..8,191: `gen N tracks T regions R cycles 256 sum S`. The session that is made from n
/// has T tracks of R regions each. It is exported in memory from 0 over 256 cycles, and S is the sum of all
/// samples of the master's file, of 16 bits. Err is want of memory.
pub fn gen_line(alloc: Global, n: u32) -> Result<String, NoMemory>
    requires { n ≤ 8191 }
    ensures { IfOk result (λ text. string_bytes text ≡ gen_text n) }
{
    let sum = sum_of_export(alloc, n)?;
    line_of(alloc, n, tracks_made(n), regions_each(n), sum)
}
