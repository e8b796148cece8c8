//! Reads and writes that fail.
use super::{Left, Run};
use crate::bench::Fails;
use crate::sessions::{DEPTH_2, DEPTH_8, L, SOURCE_L, TRACK_T, TWO};
use crate::steps::Step;
use butler::{ButlerFault, Turn};

// The heads of no block, and of one.
const NONE: &[u8] =
    b"RIFF\x24\0\0\0WAVEfmt \x10\0\0\0\x01\0\x01\0\x80\xbb\0\0\0\x77\x01\0\x02\0\x10\0data\x00\0\0\0";

const ONE: &[u8] =
    b"RIFF\x28\0\0\0WAVEfmt \x10\0\0\0\x01\0\x01\0\x80\xbb\0\0\0\x77\x01\0\x02\0\x10\0data\x04\0\0\0";

// The first two blocks are silent.
const LATE: &[u8] = b"
[[track.region]]
id = 1
source = \"l\"
length = 16
at = 4
";

pub(crate) const RUNS: &[Run] = &[
    // a write of a take fails: what else comes of it is left out, the next take is written, and what is due is sent
    Run {
        session: &[TWO, DEPTH_2, TRACK_T],
        files: &[],
        fails: Fails::Writes("take-t-1.wav", 44),
        cycles: 100,
        steps: &[
            Step::Block(0, (1, 0), &[256, 512]),
            Step::Block(0, (1, 1), &[768, 1024]),
            Step::Full(0, (1, 2), &[1280, 1536]),
            Step::Fault(ButlerFault::WriteFault),
            Step::Block(0, (1, 2), &[1280, 1536]),
            Step::Full(0, (1, 3), &[1792, 2048]),
            Step::Turn(100, Turn::Moved(4)),
            Step::Block(0, (1, 3), &[1792, 2048]),
            Step::Block(0, (2, 0), &[256, 512]),
            Step::Mark(0, 0, 0, 0),
            Step::Piece(0, 0, 0, &[0, 0]),
            Step::Turn(100, Turn::Moved(3)),
            Step::Close(0),
            Step::Turn(100, Turn::Idle),
            Step::Over(true),
            Step::CloseAcks,
            Step::Turn(100, Turn::Idle),
            Step::Over(true),
        ],
        left: &[
            Left {
                name: "take-t-1.wav",
                parts: Some(&[NONE]),
            },
            Left {
                name: "take-t-2.wav",
                parts: Some(&[ONE, b"\x01\0\x02\0"]),
            },
        ],
    },
    // after a read that fails nothing is sent, and what is recorded is flushed
    Run {
        session: &[TWO, DEPTH_8, SOURCE_L, TRACK_T, LATE],
        files: &[L],
        fails: Fails::Reads("l.wav", 44),
        cycles: 100,
        steps: &[
            Step::Fault(ButlerFault::ReadFault),
            Step::Mark(0, 0, 0, 0),
            Step::Piece(0, 0, 0, &[0, 0]),
            Step::Piece(0, 0, 1, &[0, 0]),
            Step::Closed(0),
            Step::Turn(100, Turn::Idle),
            Step::Block(0, (1, 0), &[256, 512]),
            Step::Turn(100, Turn::Moved(1)),
            Step::Turn(100, Turn::Idle),
            Step::Closed(0),
            Step::Over(false),
            Step::Close(0),
            Step::Turn(100, Turn::Idle),
            Step::Over(true),
        ],
        left: &[Left {
            name: "take-t-1.wav",
            parts: Some(&[ONE, b"\x01\0\x02\0"]),
        }],
    },
];
