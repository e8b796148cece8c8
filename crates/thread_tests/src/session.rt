//! A session of two tracks, with its source and an input of three blocks.
use ses_io::NoMemory;
use std::alloc::Global;
use thread_rows::{Case, case_by};

// Blocks of four frames, through rings of two items: a track plays three blocks and records, another plays from the second one on.
const TEXT: &str = r#"[session]
version = 1
rate = 48000
bits = 16
channels = 1
block = 4
depth = 2

[[source]]
name = "a"
file = "a.wav"
channels = 1

[[track]]
name = "t"
channels = 1
input = 0

[[track.region]]
id = 1
source = "a"
length = 12
at = 0

[[track]]
name = "u"
channels = 1

[[track.region]]
id = 1
source = "a"
start = 2
length = 10
at = 6
"#;

const TWELVE: &[u16] = &[
    100, 200, 300, 400, 500, 600, 700, 800, 900, 1_000, 1_100, 1_200,
];

/// A run of it under these lines.
pub(crate) fn case_under(
    alloc: Global,
    control: &str,
    cycles: u32,
    patience: u64,
) -> Result<Case, NoMemory> {
    case_by(alloc, TEXT, TWELVE, TWELVE, control, cycles, patience)
}
