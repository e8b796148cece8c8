//! Steps of windows, with what each has to answer.
use piece_item::Kind;

/// A step, with what it has to answer. An offer is made at a generation and its next block.
pub(crate) enum Step {
    /// A piece is taken in: its generation, its number and its playlist edition, and its sample.
    Taken((u32, u32), (u32, u32, u32), i32),
    /// It comes back, for later.
    Later((u32, u32), (u32, u32, u32), i32),
    /// A mark is taken in, or comes back.
    Mark((u32, u32), Kind, bool),
    /// A block of a generation is heard: its playlist edition and its sample.
    Heard(u32, u32, u32, i32),
    /// A block of a generation isn't heard.
    Silent(u32, u32),
    /// The mark in force at a generation and its next block.
    Settled(u32, u32, u32),
    /// The first 256 blocks are taken in, each with its number as its sample.
    AllTaken,
    /// And each is heard.
    AllHeard,
}

/// A window of so many boxes, with its steps.
pub(crate) struct Row {
    pub(crate) depth: u32,
    pub(crate) steps: &'static [Step],
}

const THIRD: Kind = Kind::Settled {
    edition: 3,
    generation: 0,
    from: 1,
};

const FOURTH: Kind = Kind::Settled {
    edition: 4,
    generation: 1,
    from: 0,
};

pub(crate) const ROWS: &[Row] = &[
    // nothing is in a new window
    Row {
        depth: 2,
        steps: &[Step::Silent(0, 0), Step::Settled(0, 0, 0)],
    },
    // the newer piece is heard
    Row {
        depth: 2,
        steps: &[
            Step::Taken((0, 0), (0, 0, 0), 10),
            Step::Taken((0, 0), (0, 1, 0), 11),
            Step::Taken((0, 0), (0, 1, 3), 12),
            Step::Heard(0, 0, 0, 10),
            Step::Heard(0, 1, 3, 12),
            Step::Silent(0, 2),
        ],
    },
    // a passed block is dropped
    Row {
        depth: 2,
        steps: &[
            Step::Taken((0, 0), (0, 0, 0), 10),
            Step::Taken((0, 1), (0, 2, 0), 13),
            Step::Silent(0, 0),
            Step::Heard(0, 2, 0, 13),
            Step::Taken((0, 1), (0, 0, 3), 14),
            Step::Silent(0, 0),
            Step::Heard(0, 2, 0, 13),
        ],
    },
    // a newer generation waits
    Row {
        depth: 2,
        steps: &[
            Step::Taken((0, 0), (0, 0, 0), 10),
            Step::Later((0, 0), (1, 0, 0), 15),
            Step::Heard(0, 0, 0, 10),
            Step::Taken((1, 0), (1, 0, 0), 15),
            Step::Heard(1, 0, 0, 15),
            Step::Taken((1, 0), (0, 0, 3), 16),
            Step::Heard(1, 0, 0, 15),
        ],
    },
    // the greatest mark stays
    Row {
        depth: 2,
        steps: &[
            Step::Mark((0, 1), THIRD, true),
            Step::Settled(0, 1, 3),
            Step::Mark((0, 1), FOURTH, false),
            Step::Settled(0, 1, 3),
            Step::Settled(1, 0, 3),
            Step::Mark((1, 0), FOURTH, true),
            Step::Settled(1, 0, 4),
        ],
    },
    // a window of 256 boxes has 256 blocks
    Row {
        depth: 256,
        steps: &[
            Step::AllTaken,
            Step::AllHeard,
            Step::Silent(0, 256),
            Step::Taken((0, 1), (0, 256, 0), 256),
            Step::Silent(0, 0),
            Step::Heard(0, 1, 0, 1),
            Step::Heard(0, 256, 0, 256),
        ],
    },
];
