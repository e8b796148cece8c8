//! Exports of sources and masters of other numbers of bits than 16.
use super::row::{A, EXPORTED, FIRST, FORM, FORMAT, Form, HEAD, PARTS, REGION, Row, TWO_CYCLES};
use crate::bench::File;
use cycle_journal::State;

const ONE_CYCLE: &[&str] = &["export", "s.toml", "0", "1"];

// Mono frames of 24 bits.
const FORMAT_OF_24: &[u8] = &[1, 0, 1, 0, 0x80, 0xbb, 0, 0, 0x80, 0x32, 2, 0, 3, 0, 24, 0];

const THREES: File = File {
    name: "s.toml",
    parts: &[HEAD, b"block = 3\nbits = 24\n", PARTS, REGION],
};

pub(crate) const OF_BITS: &[Row] = &[
    // a source of 8 bits, unsigned around 128: 0 256 -256 32,512
    Row {
        words: ONE_CYCLE,
        files: &[
            File {
                name: "s.toml",
                parts: &[
                    HEAD,
                    FORM,
                    PARTS,
                    b"[[track.region]]\nid = 1\nsource = \"a\"\nlength = 4\nat = 0\n",
                ],
            },
            File {
                name: "a.wav",
                parts: &[
                    b"RIFF\x28\0\0\0WAVEfmt \x10\0\0\0",
                    &[1, 0, 1, 0, 0x80, 0xbb, 0, 0, 0x80, 0xbb, 0, 0, 1, 0, 8, 0],
                    b"data\x04\0\0\0",
                    &[128, 129, 127, 255],
                ],
            },
        ],
        report: Some(Form {
            cycles: 1,
            ..TWO_CYCLES
        }),
        master: &[
            b"RIFF\x2c\0\0\0WAVEfmt \x10\0\0\0",
            FORMAT,
            b"data\x08\0\0\0",
            &[0, 0, 0, 1, 0, 0xff, 0, 0x7f],
        ],
        states: &[FIRST],
        ..EXPORTED
    },
    // three frames of 24 bits are 9 bytes and a pad byte: 54 in all
    Row {
        words: ONE_CYCLE,
        files: &[THREES, A],
        report: Some(Form {
            bits: 24,
            block: 3,
            cycles: 1,
            ..TWO_CYCLES
        }),
        master: &[
            b"RIFF\x2e\0\0\0WAVEfmt \x10\0\0\0",
            FORMAT_OF_24,
            b"data\x09\0\0\0",
            &[0, 0x64, 0, 0, 0xc8, 0, 0, 0x2c, 1, 0],
        ],
        states: &[FIRST],
        ..EXPORTED
    },
    // of three cycles it is one pad byte too, behind 27: 100 to 800, and silence
    Row {
        words: &["export", "s.toml", "0", "3"],
        files: &[THREES, A],
        report: Some(Form {
            bits: 24,
            block: 3,
            cycles: 3,
            ..TWO_CYCLES
        }),
        master: &[
            b"RIFF\x40\0\0\0WAVEfmt \x10\0\0\0",
            FORMAT_OF_24,
            b"data\x1b\0\0\0",
            &[0, 0x64, 0, 0, 0xc8, 0, 0, 0x2c, 1],
            &[0, 0x90, 1, 0, 0xf4, 1, 0, 0x58, 2],
            &[0, 0xbc, 2, 0, 0x20, 3, 0, 0, 0, 0],
        ],
        states: &[
            FIRST,
            State::Rolling {
                generation: 1,
                seq: 1,
            },
            State::Rolling {
                generation: 1,
                seq: 2,
            },
        ],
        ..EXPORTED
    },
    // a source of 24 bits is rounded down in a file of 16: 255, -1 and 511 of 256 parts are 0, -1 and 1
    Row {
        words: ONE_CYCLE,
        files: &[
            File {
                name: "s.toml",
                parts: &[HEAD, FORM, PARTS, REGION],
            },
            File {
                name: "a.wav",
                parts: &[
                    b"RIFF\x2e\0\0\0WAVEfmt \x10\0\0\0",
                    FORMAT_OF_24,
                    b"data\x09\0\0\0",
                    &[0xff, 0, 0, 0xff, 0xff, 0xff, 0xff, 1, 0, 0],
                ],
            },
        ],
        report: Some(Form {
            cycles: 1,
            ..TWO_CYCLES
        }),
        master: &[
            b"RIFF\x2c\0\0\0WAVEfmt \x10\0\0\0",
            FORMAT,
            b"data\x08\0\0\0",
            &[0, 0, 0xff, 0xff, 1, 0, 0, 0],
        ],
        states: &[FIRST],
        ..EXPORTED
    },
];
