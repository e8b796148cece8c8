//! Blocks of takes.
use super::{NO_FAULT, Run};
use crate::sessions::{HEAD_3, HEAD_4, ONE_TO_FOUR, SILENCE, SIX, TWENTY};
use crate::steps::Step;
use cycle_journal::{Play, State, Take};
use process_cycle::Look;

// Three blocks of an input of six frames: the last two frames of the second one are zeros, and the third one is.
const ENDS: &[Step] = &[
    Step::Begin(Some(Ok(()))),
    Step::Edit("record on"),
    Step::Edit("roll"),
    Step::Mark(0, 0, 0),
    Step::Piece(0, 0, 0, &[256, 512, 768, 1024]),
    Step::Look(Some(Look::Ready)),
    Step::Cycle(Some(Ok(()))),
    Step::Block(1, 0, &[256, 512, 768, 1024]),
    Step::Look(Some(Look::Short)),
    Step::Cycle(Some(Ok(()))),
    Step::Block(1, 1, &[1280, 1536, 0, 0]),
    Step::Look(Some(Look::Short)),
    Step::Cycle(Some(Ok(()))),
    Step::Entry(
        3,
        (2, 0),
        State::Rolling {
            generation: 0,
            seq: 2,
        },
        Play::Short(2),
        Take::Taken { take: 1, index: 2 },
    ),
    Step::Block(1, 2, &[0, 0, 0, 0]),
    Step::NoBlock,
];

pub(crate) const RUNS: &[Run] = &[
    // a take goes on in the next edition; where recording was off a new one begins
    Run {
        input: TWENTY,
        frames: 20,
        fails: NO_FAULT,
        cycles: 4,
        steps: &[
            Step::Begin(Some(Ok(()))),
            Step::Edit("record on"),
            Step::Edit("roll"),
            Step::Mark(0, 0, 0),
            Step::Piece(0, 0, 0, &[256, 512, 768, 1024]),
            Step::Look(Some(Look::Ready)),
            Step::Cycle(Some(Ok(()))),
            Step::Entry(
                1,
                (2, 0),
                State::Rolling {
                    generation: 0,
                    seq: 0,
                },
                Play::Heard(0),
                Take::Taken { take: 1, index: 0 },
            ),
            Step::Block(1, 0, &[256, 512, 768, 1024]),
            Step::NoBlock,
            Step::Edit("mute t on"),
            Step::Piece(0, 1, 0, &[256, 512, 768, 1024]),
            Step::Look(Some(Look::Ready)),
            Step::Cycle(Some(Ok(()))),
            Step::Entry(
                2,
                (3, 0),
                State::Rolling {
                    generation: 0,
                    seq: 1,
                },
                Play::Heard(0),
                Take::Taken { take: 1, index: 1 },
            ),
            Step::Block(1, 1, &[1280, 1536, 1792, 2048]),
            Step::Edit("record off"),
            Step::Piece(0, 2, 0, &[256, 512, 768, 1024]),
            Step::Look(Some(Look::Ready)),
            Step::Cycle(Some(Ok(()))),
            Step::Entry(
                3,
                (4, 0),
                State::Rolling {
                    generation: 0,
                    seq: 2,
                },
                Play::Heard(0),
                Take::Off,
            ),
            Step::NoBlock,
            Step::Edit("record on"),
            Step::Piece(0, 3, 0, &[256, 512, 768, 1024]),
            Step::Look(Some(Look::Ready)),
            Step::Cycle(Some(Ok(()))),
            Step::Entry(
                4,
                (5, 0),
                State::Rolling {
                    generation: 0,
                    seq: 3,
                },
                Play::Heard(0),
                Take::Taken { take: 2, index: 0 },
            ),
            Step::Block(2, 0, &[3328, 3584, 3840, 4096]),
            Step::NoBlock,
        ],
        master: &[HEAD_4, ONE_TO_FOUR, SILENCE, SILENCE, SILENCE],
    },
    // the third block of a take finds its ring full, and the fourth is taken once the ring was emptied
    Run {
        input: TWENTY,
        frames: 20,
        fails: NO_FAULT,
        cycles: 4,
        steps: &[
            Step::Begin(Some(Ok(()))),
            Step::Edit("record on"),
            Step::Edit("roll"),
            Step::Mark(0, 0, 0),
            Step::Piece(0, 0, 0, &[256, 512, 768, 1024]),
            Step::Look(Some(Look::Ready)),
            Step::Cycle(Some(Ok(()))),
            Step::Look(Some(Look::Short)),
            Step::Cycle(Some(Ok(()))),
            Step::Entry(
                2,
                (2, 0),
                State::Rolling {
                    generation: 0,
                    seq: 1,
                },
                Play::Short(2),
                Take::Taken { take: 1, index: 1 },
            ),
            Step::Look(Some(Look::Short)),
            Step::Cycle(Some(Ok(()))),
            Step::Entry(
                3,
                (2, 0),
                State::Rolling {
                    generation: 0,
                    seq: 2,
                },
                Play::Short(2),
                Take::Lost {
                    take: 1,
                    index: 2,
                    head: 0,
                },
            ),
            Step::Block(1, 0, &[256, 512, 768, 1024]),
            Step::Block(1, 1, &[1280, 1536, 1792, 2048]),
            Step::NoBlock,
            Step::Ack(1, 0, 1, 0),
            Step::Ack(2, 0, 2, 0),
            Step::NoAck,
            Step::Look(Some(Look::Short)),
            Step::Cycle(Some(Ok(()))),
            Step::Entry(
                4,
                (2, 0),
                State::Rolling {
                    generation: 0,
                    seq: 3,
                },
                Play::Short(2),
                Take::Taken { take: 1, index: 3 },
            ),
            Step::Block(1, 3, &[3328, 3584, 3840, 4096]),
            Step::NoBlock,
            Step::Ack(4, 0, 4, 0),
            Step::NoAck,
        ],
        master: &[HEAD_4, ONE_TO_FOUR, SILENCE, SILENCE, SILENCE],
    },
    // the input ends within a block, as its head tells
    Run {
        input: SIX,
        frames: 6,
        fails: NO_FAULT,
        cycles: 3,
        steps: ENDS,
        master: &[HEAD_3, ONE_TO_FOUR, SILENCE, SILENCE],
    },
    // or before the frames that its head tells
    Run {
        input: SIX,
        frames: 100,
        fails: NO_FAULT,
        cycles: 3,
        steps: ENDS,
        master: &[HEAD_3, ONE_TO_FOUR, SILENCE, SILENCE],
    },
    // and what follows these frames is never read
    Run {
        input: TWENTY,
        frames: 6,
        fails: NO_FAULT,
        cycles: 3,
        steps: ENDS,
        master: &[HEAD_3, ONE_TO_FOUR, SILENCE, SILENCE],
    },
];
