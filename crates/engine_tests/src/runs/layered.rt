//! Exports of regions with gains, fades and layers, and of lanes.
use super::row::{
    A, DATA, EIGHT_OF_400, EVEN, EXPORTED, FORM, FORMAT, Form, HEAD, PARTS, REGION, RIFF, Row,
    SOURCE_B, TWO_CYCLES,
};
use crate::bench::File;

// Eight frames of 800, and of 400 as a second source.
const BELOW: File = File {
    name: "a.wav",
    parts: &[
        RIFF,
        FORMAT,
        DATA,
        &[
            0x20, 3, 0x20, 3, 0x20, 3, 0x20, 3, 0x20, 3, 0x20, 3, 0x20, 3, 0x20, 3,
        ],
    ],
};

const ABOVE: File = File {
    name: "b.wav",
    parts: &[RIFF, FORMAT, DATA, EIGHT_OF_400],
};

pub(crate) const LAYERED: &[Row] = &[
    // half of 1 is rounded down to 0, and half of -1 to -1
    Row {
        files: &[
            File {
                name: "s.toml",
                parts: &[
                    HEAD,
                    FORM,
                    PARTS,
                    b"[[track.region]]\nid = 1\nsource = \"a\"\nlength = 2\nat = 0\ngain = 32768\n",
                ],
            },
            File {
                name: "a.wav",
                parts: &[
                    b"RIFF\x28\0\0\0WAVEfmt \x10\0\0\0",
                    FORMAT,
                    b"data\x04\0\0\0",
                    &[1, 0, 0xff, 0xff],
                ],
            },
        ],
        master: &[
            RIFF,
            FORMAT,
            DATA,
            &[0, 0, 0xff, 0xff, 0, 0, 0, 0, 0, 0, 0, 0, 0, 0, 0, 0],
        ],
        ..EXPORTED
    },
    // a linear fade in of four frames: 0 100 200 300, and then 400
    Row {
        files: &[
            File {
                name: "s.toml",
                parts: &[HEAD, FORM, PARTS, REGION, b"fade_in = 4\n"],
            },
            EVEN,
        ],
        master: &[
            RIFF,
            FORMAT,
            DATA,
            &[
                0, 0, 0x64, 0, 0xc8, 0, 0x2c, 1, 0x90, 1, 0x90, 1, 0x90, 1, 0x90, 1,
            ],
        ],
        ..EXPORTED
    },
    // from two on a fade out of four, whose last frame is 0: 400 400 300 200 100 0, and then silence
    Row {
        words: &["export", "s.toml", "2", "2"],
        files: &[
            File {
                name: "s.toml",
                parts: &[HEAD, FORM, PARTS, REGION, b"fade_out = 4\n"],
            },
            EVEN,
        ],
        report: Some(Form {
            from: 2,
            ..TWO_CYCLES
        }),
        master: &[
            RIFF,
            FORMAT,
            DATA,
            &[
                0x90, 1, 0x90, 1, 0x2c, 1, 0xc8, 0, 0x64, 0, 0, 0, 0, 0, 0, 0,
            ],
        ],
        ..EXPORTED
    },
    // a slow fade in of 100 to 800, by 0, 1, 4 and 9 parts of 16: 0 12 75 225, and then 500 to 800
    Row {
        files: &[
            File {
                name: "s.toml",
                parts: &[
                    b"[session]\nversion = 2\nrate = 48000\nchannels = 1\ndepth = 2\n",
                    FORM,
                    PARTS,
                    REGION,
                    b"fade_in = 4\nshape_in = \"slow\"\n",
                ],
            },
            A,
        ],
        master: &[
            RIFF,
            FORMAT,
            DATA,
            &[
                0, 0, 12, 0, 75, 0, 225, 0, 0xf4, 1, 0x58, 2, 0xbc, 2, 0x20, 3,
            ],
        ],
        ..EXPORTED
    },
    // 400 that fades in over 800 and covers it: 800 700 600 500, and then 400
    Row {
        files: &[
            File {
                name: "s.toml",
                parts: &[
                    HEAD,
                    FORM,
                    PARTS,
                    REGION,
                    b"[[track.region]]\nid = 2\nsource = \"b\"\nlength = 8\nat = 0\nlayer = 1\nfade_in = 4\n",
                    SOURCE_B,
                ],
            },
            BELOW,
            ABOVE,
        ],
        master: &[
            RIFF,
            FORMAT,
            DATA,
            &[
                0x20, 3, 0xbc, 2, 0x58, 2, 0xf4, 1, 0x90, 1, 0x90, 1, 0x90, 1, 0x90, 1,
            ],
        ],
        ..EXPORTED
    },
    // 400 through which 800 is heard: 1,200 eight times
    Row {
        files: &[
            File {
                name: "s.toml",
                parts: &[
                    HEAD,
                    FORM,
                    PARTS,
                    b"[[track.region]]\nid = 1\nsource = \"b\"\nlength = 8\nat = 0\nlayer = 1\nopaque = false\n",
                    b"[[track.region]]\nid = 2\nsource = \"a\"\nlength = 8\nat = 0\n",
                    SOURCE_B,
                ],
            },
            BELOW,
            ABOVE,
        ],
        master: &[
            RIFF,
            FORMAT,
            DATA,
            &[
                0xb0, 4, 0xb0, 4, 0xb0, 4, 0xb0, 4, 0xb0, 4, 0xb0, 4, 0xb0, 4, 0xb0, 4,
            ],
        ],
        ..EXPORTED
    },
    // a lane that falls to nothing in four frames: 400 300 200 100, and then silence
    Row {
        files: &[
            File {
                name: "s.toml",
                parts: &[
                    HEAD,
                    FORM,
                    PARTS,
                    b"mode = \"play\"\nlane = [[0, 65536], [4, 0]]\n",
                    REGION,
                ],
            },
            EVEN,
        ],
        master: &[
            RIFF,
            FORMAT,
            DATA,
            &[0x90, 1, 0x2c, 1, 0xc8, 0, 0x64, 0, 0, 0, 0, 0, 0, 0, 0, 0],
        ],
        ..EXPORTED
    },
];
