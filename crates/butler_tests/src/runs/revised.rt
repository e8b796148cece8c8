//! A region changes after its pieces were sent: a track of blocks of two frames plays the samples 1 to 16, times 256.
use super::Run;
use crate::bench::Fails;
use crate::sessions::{DEPTH_8, L, SOURCE_L, TRACK_T, TWO};
use crate::steps::Step;
use butler::Turn;

const REGION: &[u8] = b"
[[track.region]]
id = 1
source = \"l\"
length = 16
at = 0
";

const SESSION: &[&[u8]] = &[TWO, DEPTH_8, SOURCE_L, TRACK_T, REGION];

pub(crate) const RUNS: &[Run] = &[
    // the farthest piece is revised first, by the last edit
    Run {
        session: SESSION,
        files: &[L],
        fails: Fails::Nothing,
        cycles: 100,
        steps: &[
            Step::Turn(100, Turn::Moved(8)),
            Step::Mark(0, 0, 0, 0),
            Step::Piece(0, 0, 0, &[256, 512]),
            Step::Piece(0, 0, 1, &[768, 1024]),
            Step::Piece(0, 0, 2, &[1280, 1536]),
            Step::Piece(0, 0, 3, &[1792, 2048]),
            Step::Piece(0, 0, 4, &[2304, 2560]),
            Step::Piece(0, 0, 5, &[2816, 3072]),
            Step::Piece(0, 0, 6, &[3328, 3584]),
            Step::Nothing(0),
            Step::Edit("rgain t 1 32768"),
            Step::Turn(3, Turn::Moved(3)),
            Step::Revised(0, 0, 6, 1, &[1664, 1792]),
            Step::Revised(0, 0, 5, 1, &[1408, 1536]),
            Step::Revised(0, 0, 4, 1, &[1152, 1280]),
            Step::Nothing(0),
            Step::Edit("rgain t 1 16384"),
            Step::Turn(1, Turn::Moved(1)),
            Step::Revised(0, 0, 6, 2, &[832, 896]),
            Step::Nothing(0),
            Step::Turn(100, Turn::Moved(8)),
            Step::Revised(0, 0, 5, 2, &[704, 768]),
            Step::Revised(0, 0, 4, 2, &[576, 640]),
            Step::Revised(0, 0, 3, 2, &[448, 512]),
            Step::Revised(0, 0, 2, 2, &[320, 384]),
            Step::Revised(0, 0, 1, 2, &[192, 256]),
            Step::Revised(0, 0, 0, 2, &[64, 128]),
            Step::Mark(0, 2, 0, 0),
            Step::Revised(0, 0, 7, 2, &[960, 1024]),
            Step::Turn(100, Turn::Idle),
            Step::Nothing(0),
        ],
    },
    // two edits in a row revise each place once, and none that was passed
    Run {
        session: SESSION,
        files: &[L],
        fails: Fails::Nothing,
        cycles: 100,
        steps: &[
            Step::Turn(100, Turn::Moved(8)),
            Step::Pass(0, 8),
            Step::Edit("rgain t 1 32768"),
            Step::Edit("rgain t 1 16384"),
            Step::Next(0, 3),
            Step::Turn(100, Turn::Moved(8)),
            Step::Revised(0, 0, 6, 2, &[832, 896]),
            Step::Revised(0, 0, 5, 2, &[704, 768]),
            Step::Revised(0, 0, 4, 2, &[576, 640]),
            Step::Revised(0, 0, 3, 2, &[448, 512]),
            Step::Mark(0, 2, 0, 3),
            Step::Revised(0, 0, 7, 2, &[960, 1024]),
            Step::Revised(0, 0, 8, 2, &[0, 0]),
            Step::Revised(0, 0, 9, 2, &[0, 0]),
            Step::Nothing(0),
            Step::Turn(100, Turn::Moved(1)),
            Step::Revised(0, 0, 10, 2, &[0, 0]),
            Step::Turn(100, Turn::Idle),
        ],
    },
];
