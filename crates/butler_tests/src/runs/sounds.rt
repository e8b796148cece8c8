//! What pieces hold: loops, places past a region, two channels, and layers.
use super::Run;
use crate::bench::Fails;
use crate::sessions::{DEPTH_8, FOUR, L, SOURCE_L, SOURCE_W, TRACK_T, TRACK_W, W, WIDE};
use crate::steps::Step;
use butler::Turn;

// The samples 1 to 16, times 256, at places 0 to 15.
const WHOLE: &[u8] = b"
[[track.region]]
id = 1
source = \"l\"
length = 16
at = 0
";

// Two channels at places 0 to 2.
const PAIRED: &[u8] = b"
[[track.region]]
id = 1
source = \"w\"
length = 3
at = 0
";

// The samples 1 to 8, times 256, and over them 9 to 16, which fade in.
const LAYERS: &[u8] = b"
[[track.region]]
id = 1
source = \"l\"
length = 8
at = 0

[[track.region]]
id = 2
source = \"l\"
start = 8
length = 8
at = 0
layer = 1
opaque = false
fade_in = 4
";

pub(crate) const RUNS: &[Run] = &[
    // a loop shorter than a block comes again within it
    Run {
        session: &[FOUR, DEPTH_8, SOURCE_L, TRACK_T, WHOLE],
        files: &[L],
        fails: Fails::Nothing,
        cycles: 100,
        steps: &[
            Step::Edit("loop 1 3"),
            Step::Turn(100, Turn::Moved(8)),
            Step::Mark(0, 1, 1, 0),
            Step::Piece(0, 1, 0, &[512, 768, 512, 768]),
            Step::Piece(0, 1, 1, &[512, 768, 512, 768]),
        ],
    },
    // a locate to the region's last frames, and one past it
    Run {
        session: &[FOUR, DEPTH_8, SOURCE_L, TRACK_T, WHOLE],
        files: &[L],
        fails: Fails::Nothing,
        cycles: 100,
        steps: &[
            Step::Edit("locate 14"),
            Step::Turn(100, Turn::Moved(8)),
            Step::Mark(0, 1, 1, 0),
            Step::Piece(0, 1, 0, &[3840, 4096, 0, 0]),
            Step::Pass(0, 6),
            Step::Edit("locate 16"),
            Step::Turn(100, Turn::Moved(8)),
            Step::Mark(0, 2, 2, 0),
            Step::Piece(0, 2, 0, &[0, 0, 0, 0]),
        ],
    },
    // two channels side by side, sample for sample
    Run {
        session: &[WIDE, DEPTH_8, SOURCE_W, TRACK_W, PAIRED],
        files: &[W],
        fails: Fails::Nothing,
        cycles: 100,
        steps: &[
            Step::Turn(100, Turn::Moved(8)),
            Step::Mark(0, 0, 0, 0),
            Step::Piece(0, 0, 0, &[1, -1, 8_388_607, -8_388_608]),
            Step::Piece(0, 0, 1, &[-1000, 70_000, 0, 0]),
            Step::Piece(0, 0, 2, &[0, 0, 0, 0]),
        ],
    },
    // a transparent region that fades in is added to the one below it
    Run {
        session: &[FOUR, DEPTH_8, SOURCE_L, TRACK_T, LAYERS],
        files: &[L],
        fails: Fails::Nothing,
        cycles: 100,
        steps: &[
            Step::Turn(100, Turn::Moved(8)),
            Step::Mark(0, 0, 0, 0),
            Step::Piece(0, 0, 0, &[256, 1152, 2176, 3328]),
            Step::Piece(0, 0, 1, &[4608, 5120, 5632, 6144]),
            Step::Piece(0, 0, 2, &[0, 0, 0, 0]),
        ],
    },
];
