//! Runs with the files that they leave, byte for byte: the headers by hand from the form of WAV files, sizes low byte first.
use crate::bench::{Passed, Run};
use crate::sessions::{BASE, DEEP, PAIR, WIDE};
use cycle_journal::Take;

#[derive(Clone, Copy)]
pub(crate) struct Row {
    pub(crate) run: Run,
    /// What each of these files holds at the end, None where there is none.
    pub(crate) files: &'static [(&'static str, Option<&'static [u8]>)],
}

const FIRST: Take = Take::Taken { take: 1, index: 0 };

const SECOND: Take = Take::Taken { take: 1, index: 1 };

const THIRD: Take = Take::Taken { take: 1, index: 2 };

const FIRST_LOST: Take = Take::Lost {
    take: 1,
    index: 0,
    head: 0,
};

const SECOND_LOST: Take = Take::Lost {
    take: 1,
    index: 1,
    head: 0,
};

const THIRD_LOST: Take = Take::Lost {
    take: 1,
    index: 2,
    head: 0,
};

const NEXT: Take = Take::Taken { take: 2, index: 0 };

// Blocks of track `t` in 16 bits: they count on from 1.
const ONE: Passed = Passed {
    track: 0,
    take: 1,
    index: 0,
    samples: &[256, 512, 768, 1024],
};

const FIVE: Passed = Passed {
    track: 0,
    take: 1,
    index: 1,
    samples: &[1280, 1536, 1792, 2048],
};

const NINE: Passed = Passed {
    track: 0,
    take: 1,
    index: 2,
    samples: &[2304, 2560, 2816, 3072],
};

// The last of these in the next take.
const NINE_ANEW: Passed = Passed {
    track: 0,
    take: 2,
    index: 0,
    samples: &[2304, 2560, 2816, 3072],
};

// A block of track `u`: frames of two channels.
const PAIRED: Passed = Passed {
    track: 1,
    take: 1,
    index: 0,
    samples: &[256, -256, 512, -512, 768, -768, 1024, -1024],
};

// Blocks of three frames in 24 bits: 1, 2 and 3 beside 1001, 1002 and 1003; and -1, the greatest sample and the least.
const WIDE_ONE: Passed = Passed {
    track: 0,
    take: 1,
    index: 0,
    samples: &[1, 1001, 2, 1002, 3, 1003],
};

const DEEP_ONE: Passed = Passed {
    track: 0,
    take: 1,
    index: 0,
    samples: &[-1, 8_388_607, -8_388_608],
};

/// The third block of a take is lost.
pub(crate) const THIRD_IS_LOST: Row = Row {
    run: Run {
        session: BASE,
        blocks: &[ONE, FIVE],
        entries: &[&[FIRST], &[SECOND], &[THIRD_LOST]],
    },
    files: &[(
        "take-t-1.wav",
        Some(
            b"RIFF\x3c\0\0\0WAVEfmt \x10\0\0\0\x01\0\x01\0\x80\xbb\0\0\0\x77\x01\0\x02\0\x10\0data\x18\0\0\0\x01\0\x02\0\x03\0\x04\0\x05\0\x06\0\x07\0\x08\0\0\0\0\0\0\0\0\0",
        ),
    )],
};

// What two such runs leave: the first take of track `t` cut behind its first block, and the other takes whole.
const ONE_CUT: &[(&str, Option<&[u8]>)] = &[
    (
        "take-t-1.wav",
        Some(
            b"RIFF\x2c\0\0\0WAVEfmt \x10\0\0\0\x01\0\x01\0\x80\xbb\0\0\0\x77\x01\0\x02\0\x10\0data\x08\0\0\0\x01\0\x02\0\x03\0\x04\0",
        ),
    ),
    (
        "take-t-2.wav",
        Some(
            b"RIFF\x2c\0\0\0WAVEfmt \x10\0\0\0\x01\0\x01\0\x80\xbb\0\0\0\x77\x01\0\x02\0\x10\0data\x08\0\0\0\x09\0\x0a\0\x0b\0\x0c\0",
        ),
    ),
    (
        "take-u-1.wav",
        Some(
            b"RIFF\x34\0\0\0WAVEfmt \x10\0\0\0\x01\0\x02\0\x80\xbb\0\0\0\xee\x02\0\x04\0\x10\0data\x10\0\0\0\x01\0\xff\xff\x02\0\xfe\xff\x03\0\xfd\xff\x04\0\xfc\xff",
        ),
    ),
];

/// The second block of a take is lost, and a write behind its first one fails: the takes behind it are whole all the same.
pub(crate) const ONE_IS_CUT: Row = Row {
    run: Run {
        session: PAIR,
        blocks: &[ONE, PAIRED, NINE_ANEW],
        entries: &[
            &[FIRST, FIRST],
            &[SECOND_LOST, Take::Off],
            &[Take::Off, Take::Off],
            &[NEXT, Take::Off],
        ],
    },
    files: ONE_CUT,
};

/// A write of the second block of a take fails, and a third one comes: the take stays as it was, and all others are whole, the next
/// one of the track too. These are the files of the run before.
pub(crate) const ONE_HAS_FAILED: Row = Row {
    run: Run {
        session: PAIR,
        blocks: &[ONE, PAIRED, FIVE, NINE, NINE_ANEW],
        entries: &[
            &[FIRST, FIRST],
            &[SECOND, Take::Off],
            &[THIRD, Take::Off],
            &[Take::Off, Take::Off],
            &[NEXT, Take::Off],
        ],
    },
    files: ONE_CUT,
};

pub(crate) const ROWS: &[Row] = &[
    // one take of two blocks
    Row {
        run: Run {
            session: BASE,
            blocks: &[ONE, FIVE],
            entries: &[&[FIRST], &[SECOND]],
        },
        files: &[
            (
                "take-t-1.wav",
                Some(
                    b"RIFF\x34\0\0\0WAVEfmt \x10\0\0\0\x01\0\x01\0\x80\xbb\0\0\0\x77\x01\0\x02\0\x10\0data\x10\0\0\0\x01\0\x02\0\x03\0\x04\0\x05\0\x06\0\x07\0\x08\0",
                ),
            ),
            ("take-t-0.wav", None),
            ("take-t-2.wav", None),
        ],
    },
    // blocks lost at the end, in the middle and at the front
    THIRD_IS_LOST,
    Row {
        run: Run {
            session: BASE,
            blocks: &[ONE, NINE],
            entries: &[&[FIRST], &[SECOND_LOST], &[THIRD]],
        },
        files: &[(
            "take-t-1.wav",
            Some(
                b"RIFF\x3c\0\0\0WAVEfmt \x10\0\0\0\x01\0\x01\0\x80\xbb\0\0\0\x77\x01\0\x02\0\x10\0data\x18\0\0\0\x01\0\x02\0\x03\0\x04\0\0\0\0\0\0\0\0\0\x09\0\x0a\0\x0b\0\x0c\0",
            ),
        )],
    },
    Row {
        run: Run {
            session: BASE,
            blocks: &[FIVE],
            entries: &[&[FIRST_LOST], &[SECOND]],
        },
        files: &[(
            "take-t-1.wav",
            Some(
                b"RIFF\x34\0\0\0WAVEfmt \x10\0\0\0\x01\0\x01\0\x80\xbb\0\0\0\x77\x01\0\x02\0\x10\0data\x10\0\0\0\0\0\0\0\0\0\0\0\x05\0\x06\0\x07\0\x08\0",
            ),
        )],
    },
    // two takes
    Row {
        run: Run {
            session: BASE,
            blocks: &[ONE, NINE_ANEW],
            entries: &[&[FIRST], &[Take::Off], &[NEXT]],
        },
        files: &[
            (
                "take-t-1.wav",
                Some(
                    b"RIFF\x2c\0\0\0WAVEfmt \x10\0\0\0\x01\0\x01\0\x80\xbb\0\0\0\x77\x01\0\x02\0\x10\0data\x08\0\0\0\x01\0\x02\0\x03\0\x04\0",
                ),
            ),
            (
                "take-t-2.wav",
                Some(
                    b"RIFF\x2c\0\0\0WAVEfmt \x10\0\0\0\x01\0\x01\0\x80\xbb\0\0\0\x77\x01\0\x02\0\x10\0data\x08\0\0\0\x09\0\x0a\0\x0b\0\x0c\0",
                ),
            ),
        ],
    },
    // an odd number of frames: of two channels that is even in bytes, and of one it takes a byte behind them
    Row {
        run: Run {
            session: WIDE,
            blocks: &[WIDE_ONE],
            entries: &[&[FIRST]],
        },
        files: &[(
            "take-t-1.wav",
            Some(
                b"RIFF\x36\0\0\0WAVEfmt \x10\0\0\0\x01\0\x02\0\x80\xbb\0\0\0\x65\x04\0\x06\0\x18\0data\x12\0\0\0\x01\0\0\xe9\x03\0\x02\0\0\xea\x03\0\x03\0\0\xeb\x03\0",
            ),
        )],
    },
    Row {
        run: Run {
            session: DEEP,
            blocks: &[DEEP_ONE],
            entries: &[&[FIRST]],
        },
        files: &[(
            "take-t-1.wav",
            Some(
                b"RIFF\x2e\0\0\0WAVEfmt \x10\0\0\0\x01\0\x01\0\x80\xbb\0\0\x80\x32\x02\0\x03\0\x18\0data\x09\0\0\0\xff\xff\xff\xff\xff\x7f\0\0\x80\0",
            ),
        )],
    },
    // all blocks of a take lost
    Row {
        run: Run {
            session: BASE,
            blocks: &[],
            entries: &[&[FIRST_LOST], &[SECOND_LOST]],
        },
        files: &[(
            "take-t-1.wav",
            Some(
                b"RIFF\x34\0\0\0WAVEfmt \x10\0\0\0\x01\0\x01\0\x80\xbb\0\0\0\x77\x01\0\x02\0\x10\0data\x10\0\0\0\0\0\0\0\0\0\0\0\0\0\0\0\0\0\0\0",
            ),
        )],
    },
    // nothing was recorded
    Row {
        run: Run {
            session: BASE,
            blocks: &[],
            entries: &[&[Take::Off], &[Take::Off]],
        },
        files: &[("take-t-0.wav", None), ("take-t-1.wav", None)],
    },
    // two tracks, of which one goes on
    Row {
        run: Run {
            session: PAIR,
            blocks: &[ONE, PAIRED, FIVE],
            entries: &[&[FIRST, FIRST], &[SECOND, Take::Off]],
        },
        files: &[
            (
                "take-t-1.wav",
                Some(
                    b"RIFF\x34\0\0\0WAVEfmt \x10\0\0\0\x01\0\x01\0\x80\xbb\0\0\0\x77\x01\0\x02\0\x10\0data\x10\0\0\0\x01\0\x02\0\x03\0\x04\0\x05\0\x06\0\x07\0\x08\0",
                ),
            ),
            (
                "take-u-1.wav",
                Some(
                    b"RIFF\x34\0\0\0WAVEfmt \x10\0\0\0\x01\0\x02\0\x80\xbb\0\0\0\xee\x02\0\x04\0\x10\0data\x10\0\0\0\x01\0\xff\xff\x02\0\xfe\xff\x03\0\xfd\xff\x04\0\xfc\xff",
                ),
            ),
        ],
    },
];
