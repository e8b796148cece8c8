//! The line of a made session: `gen N tracks T regions R cycles 256 sum S`.
ghost use Rattle.std.specs.Prelude.{◌≡◌, ◌++◌, decimal, IfOk, string_bytes};
ghost use Rattle.std.specs.Fmt.{signed_decimal};
ghost use Rattle.session_gen.specs.Line.{line_of};

use ses_io::NoMemory;
use std::alloc::Global;

/// The line of the number n, of which so many tracks of so many regions were made, with a sum.
#[tactic(auto, unfolding(crate::specs::Line::line_of))]
pub(crate) fn line_of(
    alloc: Global,
    n: u32,
    tracks: u32,
    regions: u32,
    sum: i128,
) -> Result<String, NoMemory>
    ensures { IfOk result (λ text. string_bytes text ≡ line_of n tracks regions sum) }
{
    Ok(format!(in alloc; "gen {n} tracks {tracks} regions {regions} cycles 256 sum {sum}\n")?)
}
