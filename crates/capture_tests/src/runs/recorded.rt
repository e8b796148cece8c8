//! Blocks that are recorded, and the files that they go into: a head, and then samples of 16 bits, low byte first.
use super::{Left, Run};
use crate::bench::Fails;
use crate::sessions::{DEPTH_8, TRACK_T, TWO};
use crate::steps::Step;
use butler::Turn;

// The head of one block; the blocks are shorter than a head, which tells of no more.
const HEAD: &[u8] =
    b"RIFF\x28\0\0\0WAVEfmt \x10\0\0\0\x01\0\x01\0\x80\xbb\0\0\0\x77\x01\0\x02\0\x10\0data\x04\0\0\0";

pub(crate) const RUNS: &[Run] = &[
    // a turn of one item flushes one block and sends nothing
    Run {
        session: &[TWO, DEPTH_8, TRACK_T],
        files: &[],
        fails: Fails::Nothing,
        cycles: 100,
        steps: &[
            Step::Block(0, (1, 0), &[256, 512]),
            Step::Block(0, (1, 2), &[1280, 1536]),
            Step::Block(0, (2, 0), &[2304, 2560]),
            Step::Close(0),
            Step::Over(false),
            Step::Turn(1, Turn::Moved(1)),
            Step::Nothing(0),
            Step::Over(false),
        ],
        left: &[
            Left {
                name: "take-t-1.wav",
                parts: Some(&[HEAD, b"\x01\0\x02\0"]),
            },
            Left {
                name: "take-t-2.wav",
                parts: None,
            },
        ],
    },
    // all are flushed before anything is sent, with zeros for the block that is missing
    Run {
        session: &[TWO, DEPTH_8, TRACK_T],
        files: &[],
        fails: Fails::Nothing,
        cycles: 100,
        steps: &[
            Step::Block(0, (1, 0), &[256, 512]),
            Step::Block(0, (1, 2), &[1280, 1536]),
            Step::Block(0, (2, 0), &[2304, 2560]),
            Step::Close(0),
            Step::Turn(1, Turn::Moved(1)),
            Step::Nothing(0),
            Step::Turn(2, Turn::Moved(2)),
            Step::Nothing(0),
            Step::Turn(100, Turn::Moved(8)),
            Step::Over(true),
            Step::Mark(0, 0, 0, 0),
            Step::Piece(0, 0, 0, &[0, 0]),
        ],
        left: &[
            Left {
                name: "take-t-1.wav",
                parts: Some(&[HEAD, b"\x01\0\x02\0\0\0\0\0\x05\0\x06\0"]),
            },
            Left {
                name: "take-t-2.wav",
                parts: Some(&[HEAD, b"\x09\0\x0a\0"]),
            },
        ],
    },
    // what is recorded later is flushed before what is due later
    Run {
        session: &[TWO, DEPTH_8, TRACK_T],
        files: &[],
        fails: Fails::Nothing,
        cycles: 100,
        steps: &[
            Step::Turn(100, Turn::Moved(8)),
            Step::Pass(0, 8),
            Step::Block(0, (1, 0), &[256, -256]),
            Step::Turn(1, Turn::Moved(1)),
            Step::Nothing(0),
            Step::Turn(1, Turn::Moved(1)),
            Step::Piece(0, 0, 7, &[0, 0]),
            Step::Over(false),
            Step::Close(0),
            Step::Turn(100, Turn::Idle),
            Step::Over(true),
        ],
        left: &[Left {
            name: "take-t-1.wav",
            parts: Some(&[HEAD, b"\x01\0\xff\xff"]),
        }],
    },
];
