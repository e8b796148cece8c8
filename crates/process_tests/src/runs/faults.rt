//! Reads of the input and writes of the master that fail.
use super::Run;
use crate::opening::Fails;
use crate::sessions::{HEAD_2, ONE_TO_FOUR, TWENTY};
use crate::steps::Step;
use cycle_journal::{Play, State, Take};
use process_cycle::{CycleFault, Look};

pub(crate) const RUNS: &[Run] = &[
    // the second block of the input can't be read
    Run {
        input: TWENTY,
        frames: 20,
        fails: Fails {
            reads: &[2],
            writes: &[],
        },
        cycles: 2,
        steps: &[
            Step::Begin(Some(Ok(()))),
            Step::Edit("record on"),
            Step::Edit("roll"),
            Step::Mark(0, 0, 0),
            Step::Piece(0, 0, 0, &[256, 512, 768, 1024]),
            Step::Look(Some(Look::Ready)),
            Step::Cycle(Some(Ok(()))),
            Step::Entry(
                1,
                (2, 0),
                State::Rolling {
                    generation: 0,
                    seq: 0,
                },
                Play::Heard(0),
                Take::Taken { take: 1, index: 0 },
            ),
            Step::Block(1, 0, &[256, 512, 768, 1024]),
            Step::Ack(1, 0, 1, 0),
            Step::Piece(0, 1, 0, &[256, 512, 768, 1024]),
            Step::Look(Some(Look::Ready)),
            Step::Cycle(Some(Err(CycleFault::InputFault))),
            Step::Entries(1),
            Step::NoBlock,
            Step::NoAck,
            Step::Look(None),
            Step::Cycle(None),
            Step::Silence(None),
        ],
        master: &[HEAD_2, ONE_TO_FOUR],
    },
    // the header of the master can't be written
    Run {
        input: TWENTY,
        frames: 20,
        fails: Fails {
            reads: &[],
            writes: &[1],
        },
        cycles: 2,
        steps: &[
            Step::Begin(Some(Err(CycleFault::MasterFault))),
            Step::Edit("record on"),
            Step::Edit("roll"),
            Step::Look(None),
            Step::Cycle(None),
            Step::Silence(None),
            Step::Entries(0),
            Step::NoBlock,
            Step::NoAck,
        ],
        master: &[],
    },
    // its second block can't be
    Run {
        input: TWENTY,
        frames: 20,
        fails: Fails {
            reads: &[],
            writes: &[3],
        },
        cycles: 2,
        steps: &[
            Step::Begin(Some(Ok(()))),
            Step::Edit("record on"),
            Step::Edit("roll"),
            Step::Mark(0, 0, 0),
            Step::Piece(0, 0, 0, &[256, 512, 768, 1024]),
            Step::Look(Some(Look::Ready)),
            Step::Cycle(Some(Ok(()))),
            Step::Entry(
                1,
                (2, 0),
                State::Rolling {
                    generation: 0,
                    seq: 0,
                },
                Play::Heard(0),
                Take::Taken { take: 1, index: 0 },
            ),
            Step::Block(1, 0, &[256, 512, 768, 1024]),
            Step::Ack(1, 0, 1, 0),
            Step::Piece(0, 1, 0, &[256, 512, 768, 1024]),
            Step::Look(Some(Look::Ready)),
            Step::Cycle(Some(Err(CycleFault::MasterFault))),
            Step::Entries(1),
            Step::NoBlock,
            Step::NoAck,
            Step::Look(None),
            Step::Cycle(None),
            Step::Silence(None),
        ],
        master: &[HEAD_2, ONE_TO_FOUR],
    },
    // a block of the input and one of the master can't be: the input is read first
    Run {
        input: TWENTY,
        frames: 20,
        fails: Fails {
            reads: &[1],
            writes: &[2],
        },
        cycles: 2,
        steps: &[
            Step::Begin(Some(Ok(()))),
            Step::Edit("record on"),
            Step::Edit("roll"),
            Step::Mark(0, 0, 0),
            Step::Piece(0, 0, 0, &[256, 512, 768, 1024]),
            Step::Look(Some(Look::Ready)),
            Step::Cycle(Some(Err(CycleFault::InputFault))),
            Step::Entries(0),
            Step::NoBlock,
            Step::NoAck,
            Step::Cycle(None),
        ],
        master: &[HEAD_2],
    },
    // the silence at the end of the master can't be
    Run {
        input: TWENTY,
        frames: 20,
        fails: Fails {
            reads: &[],
            writes: &[3],
        },
        cycles: 2,
        steps: &[
            Step::Begin(Some(Ok(()))),
            Step::Edit("record on"),
            Step::Edit("roll"),
            Step::Mark(0, 0, 0),
            Step::Piece(0, 0, 0, &[256, 512, 768, 1024]),
            Step::Look(Some(Look::Ready)),
            Step::Cycle(Some(Ok(()))),
            Step::Entry(
                1,
                (2, 0),
                State::Rolling {
                    generation: 0,
                    seq: 0,
                },
                Play::Heard(0),
                Take::Taken { take: 1, index: 0 },
            ),
            Step::Block(1, 0, &[256, 512, 768, 1024]),
            Step::Ack(1, 0, 1, 0),
            Step::Silence(Some(Err(CycleFault::MasterFault))),
            Step::Entries(1),
            Step::NoBlock,
            Step::NoAck,
            Step::Silence(None),
        ],
        master: &[HEAD_2, ONE_TO_FOUR],
    },
];
