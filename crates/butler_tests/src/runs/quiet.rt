//! Turns that call no media.
use super::Run;
use crate::bench::Fails;
use crate::sessions::{A, B, DEPTH_2, DEPTH_8, SOURCE_A, SOURCE_B, TRACK_T, TWO};
use crate::steps::Step;
use butler::{ButlerFault, Turn};

// Two blocks of one file, and then one of another.
const REGIONS: &[u8] = b"
[[track.region]]
id = 1
source = \"a\"
length = 4
at = 0

[[track.region]]
id = 2
source = \"b\"
length = 2
at = 4
";

/// The steps that fill the rings.
pub(crate) const FILLS: &[Step] = &[Step::Turn(100, Turn::Moved(2))];

/// What follows on full rings, where the next call of the media fails: no call is made until a block of the second file is due.
pub(crate) const FULL: Run = Run {
    session: &[TWO, DEPTH_2, SOURCE_A, SOURCE_B, TRACK_T, REGIONS],
    files: &[A, B],
    fails: Fails::Nothing,
    cycles: 100,
    steps: &[
        Step::Idle(100),
        Step::Mark(0, 0, 0, 0),
        Step::Piece(0, 0, 0, &[256, 512]),
        Step::Next(0, 1),
        Step::Fault(ButlerFault::ReadFault),
        Step::Piece(0, 0, 1, &[768, 1024]),
        Step::Closed(0),
    ],
};

// Ten tracks, ten more, and ten more.
const TEN: &[u8] = b"track = [
{name = \"a0\", channels = 1}, {name = \"a1\", channels = 1},
{name = \"a2\", channels = 1}, {name = \"a3\", channels = 1},
{name = \"a4\", channels = 1}, {name = \"a5\", channels = 1},
{name = \"a6\", channels = 1}, {name = \"a7\", channels = 1},
{name = \"a8\", channels = 1}, {name = \"a9\", channels = 1},
";

const TEN_MORE: &[u8] = b"{name = \"b0\", channels = 1}, {name = \"b1\", channels = 1},
{name = \"b2\", channels = 1}, {name = \"b3\", channels = 1},
{name = \"b4\", channels = 1}, {name = \"b5\", channels = 1},
{name = \"b6\", channels = 1}, {name = \"b7\", channels = 1},
{name = \"b8\", channels = 1}, {name = \"b9\", channels = 1},
";

const LAST_TEN: &[u8] = b"{name = \"c0\", channels = 1}, {name = \"c1\", channels = 1},
{name = \"c2\", channels = 1}, {name = \"c3\", channels = 1},
{name = \"c4\", channels = 1}, {name = \"c5\", channels = 1},
{name = \"c6\", channels = 1}, {name = \"c7\", channels = 1},
{name = \"c8\", channels = 1}, {name = \"c9\", channels = 1}
]
";

pub(crate) const RUNS: &[Run] = &[
    // thirty tracks get a mark and seven silent pieces each, where the first call of the media fails
    Run {
        session: &[TEN, TEN_MORE, LAST_TEN, TWO, DEPTH_8],
        files: &[],
        fails: Fails::Call(1),
        cycles: 100,
        steps: &[
            Step::Turn(200, Turn::Moved(200)),
            Step::Turn(200, Turn::Moved(40)),
            Step::Turn(200, Turn::Idle),
            Step::Mark(0, 0, 0, 0),
            Step::Mark(29, 0, 0, 0),
            Step::Piece(29, 0, 0, &[0, 0]),
            Step::Turn(200, Turn::Moved(2)),
            Step::Pass(29, 7),
            Step::Nothing(29),
        ],
    },
];
