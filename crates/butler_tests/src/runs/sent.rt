//! Three tracks of blocks of two or four frames: what is due of each is sent, in their order.
use super::Run;
use crate::bench::Fails;
use crate::sessions::{
    A, B, DEPTH_2, DEPTH_8, FOUR, SOURCE_A, SOURCE_B, TRACK_T, TRACK_U, TRACK_V, TWO,
};
use crate::steps::Step;
use butler::Turn;

// The first track plays samples 1 to 4 from place 0 on.
const FRONT: &[u8] = b"
[[track.region]]
id = 1
source = \"a\"
length = 4
at = 0
";

// The second one 2 to 4 from place 3 on; the third one plays nothing.
const LATER: &[u8] = b"
[[track.region]]
id = 1
source = \"a\"
start = 1
length = 3
at = 3
";

// Or the first track plays samples 3 to 5 from place 4 on.
const MIDDLE: &[u8] = b"
[[track.region]]
id = 1
source = \"b\"
start = 2
length = 3
at = 4
";

// And the second one 5 and 6 from place 1 on and then past the file.
const LONG: &[u8] = b"
[[track.region]]
id = 1
source = \"b\"
start = 4
length = 100
at = 1
";

const SHALLOW: &[&[u8]] = &[
    TWO, DEPTH_2, SOURCE_A, TRACK_T, FRONT, TRACK_U, LATER, TRACK_V,
];

const DEEP: &[&[u8]] = &[
    TWO, DEPTH_8, SOURCE_A, TRACK_T, FRONT, TRACK_U, LATER, TRACK_V,
];

const LOUD: &[&[u8]] = &[
    FOUR, DEPTH_8, SOURCE_B, TRACK_T, MIDDLE, TRACK_U, LONG, TRACK_V,
];

pub(crate) const RUNS: &[Run] = &[
    // a ring of two gets a mark and pieces ahead
    Run {
        session: SHALLOW,
        files: &[A],
        fails: Fails::Nothing,
        cycles: 100,
        steps: &[
            Step::Turn(100, Turn::Moved(6)),
            Step::Turn(100, Turn::Idle),
            Step::Mark(0, 0, 0, 0),
            Step::Piece(0, 0, 0, &[256, 512]),
            Step::Nothing(0),
            Step::Turn(100, Turn::Moved(1)),
            Step::Piece(0, 0, 1, &[768, 1024]),
            Step::Turn(100, Turn::Idle),
            Step::Next(0, 1),
            Step::Turn(100, Turn::Moved(1)),
            Step::Piece(0, 0, 2, &[0, 0]),
            Step::Mark(1, 0, 0, 0),
            Step::Piece(1, 0, 0, &[0, 0]),
            Step::Turn(100, Turn::Moved(2)),
            Step::Piece(1, 0, 1, &[0, 512]),
            Step::Piece(1, 0, 2, &[768, 1024]),
            Step::Mark(2, 0, 0, 0),
            Step::Piece(2, 0, 0, &[0, 0]),
        ],
    },
    // a ring of eight gets seven pieces behind its mark
    Run {
        session: DEEP,
        files: &[A],
        fails: Fails::Nothing,
        cycles: 100,
        steps: &[
            Step::Turn(100, Turn::Moved(24)),
            Step::Mark(1, 0, 0, 0),
            Step::Turn(100, Turn::Moved(1)),
            Step::Piece(1, 0, 0, &[0, 0]),
            Step::Turn(100, Turn::Idle),
            Step::Next(0, 1),
            Step::Turn(100, Turn::Moved(1)),
            Step::Piece(1, 0, 1, &[0, 512]),
            Step::Piece(1, 0, 2, &[768, 1024]),
            Step::Piece(1, 0, 3, &[0, 0]),
        ],
    },
    // after a locate its mark and its places follow
    Run {
        session: DEEP,
        files: &[A],
        fails: Fails::Nothing,
        cycles: 100,
        steps: &[
            Step::Edit("roll"),
            Step::Turn(100, Turn::Moved(24)),
            Step::Mark(0, 1, 0, 0),
            Step::Piece(0, 0, 0, &[256, 512]),
            Step::Piece(0, 0, 1, &[768, 1024]),
            Step::Next(0, 1),
            Step::Edit("locate 3"),
            Step::Turn(2, Turn::Moved(2)),
            Step::Turn(100, Turn::Moved(1)),
            Step::Piece(0, 0, 2, &[0, 0]),
            Step::Piece(0, 0, 3, &[0, 0]),
            Step::Piece(0, 0, 4, &[0, 0]),
            Step::Piece(0, 0, 5, &[0, 0]),
            Step::Piece(0, 0, 6, &[0, 0]),
            Step::Mark(0, 2, 1, 0),
            Step::Piece(0, 1, 0, &[1024, 0]),
            Step::Piece(0, 1, 1, &[0, 0]),
            Step::Nothing(0),
        ],
    },
    // no block is sent past the asked cycles
    Run {
        session: DEEP,
        files: &[A],
        fails: Fails::Nothing,
        cycles: 3,
        steps: &[
            Step::Turn(4, Turn::Moved(4)),
            Step::Turn(4, Turn::Moved(4)),
            Step::Turn(4, Turn::Moved(4)),
            Step::Turn(4, Turn::Idle),
            Step::Next(0, 3),
            Step::Turn(4, Turn::Idle),
            Step::Edit("roll"),
            Step::Turn(4, Turn::Moved(3)),
            Step::Mark(2, 0, 0, 0),
            Step::Piece(2, 0, 0, &[0, 0]),
            Step::Piece(2, 0, 1, &[0, 0]),
            Step::Piece(2, 0, 2, &[0, 0]),
            Step::Mark(2, 1, 0, 3),
            Step::Nothing(2),
        ],
    },
    // a thousand turns each send or find nothing to send: the first sends six, and each that follows a taking three
    Run {
        session: SHALLOW,
        files: &[A],
        fails: Fails::Nothing,
        cycles: 100_000,
        steps: &[Step::Turns(1000, 6 + 499 * 3, 500)],
    },
    // silence stands around a region within a block, which its first frame may cut
    Run {
        session: LOUD,
        files: &[B],
        fails: Fails::Nothing,
        cycles: 100,
        steps: &[
            Step::Edit("locate 2"),
            Step::Turn(100, Turn::Moved(24)),
            Step::Mark(0, 1, 1, 0),
            Step::Piece(0, 1, 0, &[0, 0, 196_608, 262_144]),
            Step::Piece(0, 1, 1, &[327_680, 0, 0, 0]),
            Step::Piece(0, 1, 2, &[0, 0, 0, 0]),
        ],
    },
    // a region past its source is silent there
    Run {
        session: LOUD,
        files: &[B],
        fails: Fails::Nothing,
        cycles: 100,
        steps: &[
            Step::Turn(100, Turn::Moved(24)),
            Step::Mark(1, 0, 0, 0),
            Step::Piece(1, 0, 0, &[0, 327_680, 393_216, 0]),
            Step::Piece(1, 0, 1, &[0, 0, 0, 0]),
        ],
    },
];
