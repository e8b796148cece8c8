//! Exports through faders, sends and busses, into two channels, and of soloed and muted tracks.
use super::row::{
    DATA, EIGHT_OF_400, EVEN, EXPORTED, FORM, FORMAT, Form, HEAD, HEARD, PARTS, REGION, RIFF, Row,
    SOURCE_B, TWO_CYCLES,
};
use crate::bench::File;

const TO_B: &[u8] = b"gain = 32768\n[[track.send]]\nto = \"b\"\n";

const BUS_B: &[u8] = b"[[bus]]\nname = \"b\"\nchannels = 1\n";

// Eight frames of 16 bits and two channels.
const STEREO_RIFF: &[u8] = b"RIFF\x44\0\0\0WAVEfmt \x10\0\0\0";

const STEREO: &[u8] = &[1, 0, 2, 0, 0x80, 0xbb, 0, 0, 0, 0xee, 2, 0, 4, 0, 16, 0];

const STEREO_DATA: &[u8] = b"data\x20\0\0\0";

const STEREO_HEAD: &[u8] = b"[session]\nversion = 1\nrate = 48000\nchannels = 2\ndepth = 2\n";

// Eight frames of 100, and of 200 as a second source.
const LOW: File = File {
    name: "a.wav",
    parts: &[
        RIFF,
        FORMAT,
        DATA,
        &[
            100, 0, 100, 0, 100, 0, 100, 0, 100, 0, 100, 0, 100, 0, 100, 0,
        ],
    ],
};

const EIGHT_OF_200: &[u8] = &[
    200, 0, 200, 0, 200, 0, 200, 0, 200, 0, 200, 0, 200, 0, 200, 0,
];

const HIGH: File = File {
    name: "b.wav",
    parts: &[RIFF, FORMAT, DATA, EIGHT_OF_200],
};

const TRACK_U: &[u8] = b"[[track]]\nname = \"u\"\nchannels = 1\n";

const REGION_OF_B: &[u8] = b"[[track.region]]\nid = 1\nsource = \"b\"\nlength = 8\nat = 0\n";

pub(crate) const MIXED: &[Row] = &[
    // half of 400 by the fader, and the whole by a send before it: 600
    Row {
        files: &[
            File {
                name: "s.toml",
                parts: &[HEAD, FORM, PARTS, TO_B, b"pre = true\n", REGION, BUS_B],
            },
            EVEN,
        ],
        master: &[
            RIFF,
            FORMAT,
            DATA,
            &[
                0x58, 2, 0x58, 2, 0x58, 2, 0x58, 2, 0x58, 2, 0x58, 2, 0x58, 2, 0x58, 2,
            ],
        ],
        ..EXPORTED
    },
    // by a send after the fader the half again: 400
    Row {
        files: &[
            File {
                name: "s.toml",
                parts: &[HEAD, FORM, PARTS, TO_B, REGION, BUS_B],
            },
            EVEN,
        ],
        master: &[RIFF, FORMAT, DATA, EIGHT_OF_400],
        ..EXPORTED
    },
    // one channel into two, the second at half: 400 200 in each frame
    Row {
        files: &[
            File {
                name: "s.toml",
                parts: &[
                    STEREO_HEAD,
                    FORM,
                    PARTS,
                    b"left = 65536\nright = 32768\n",
                    REGION,
                ],
            },
            EVEN,
        ],
        report: Some(Form {
            channels: 2,
            ..TWO_CYCLES
        }),
        master: &[
            STEREO_RIFF,
            STEREO,
            STEREO_DATA,
            &[
                0x90, 1, 200, 0, 0x90, 1, 200, 0, 0x90, 1, 200, 0, 0x90, 1, 200, 0,
            ],
            &[
                0x90, 1, 200, 0, 0x90, 1, 200, 0, 0x90, 1, 200, 0, 0x90, 1, 200, 0,
            ],
        ],
        ..EXPORTED
    },
    // of 100 and 200 the second alone, which is soloed: 200
    Row {
        files: &[
            File {
                name: "s.toml",
                parts: &[
                    HEAD,
                    FORM,
                    PARTS,
                    REGION,
                    TRACK_U,
                    b"solo = true\n",
                    REGION_OF_B,
                    SOURCE_B,
                ],
            },
            LOW,
            HIGH,
        ],
        master: &[RIFF, FORMAT, DATA, EIGHT_OF_200],
        notes: &[HEARD, HEARD],
        ..EXPORTED
    },
    // where the second is soloed and muted too, neither is open: silence
    Row {
        files: &[
            File {
                name: "s.toml",
                parts: &[
                    HEAD,
                    FORM,
                    PARTS,
                    REGION,
                    TRACK_U,
                    b"solo = true\nmute = true\n",
                    REGION_OF_B,
                    SOURCE_B,
                ],
            },
            LOW,
            HIGH,
        ],
        master: &[RIFF, FORMAT, DATA, &[0; 16]],
        notes: &[HEARD, HEARD],
        ..EXPORTED
    },
    // two channels, of 400 and -400, through a bus along a lane that rises in four frames, and a master at half, from one on: 50 100
    // 150, then 200 up to the end of the sound
    Row {
        words: &["export", "s.toml", "1", "2"],
        files: &[
            File {
                name: "s.toml",
                parts: &[
                    STEREO_HEAD,
                    FORM,
                    b"[[source]]\nname = \"a\"\nfile = \"a.wav\"\nchannels = 2\n",
                    b"[[track]]\nname = \"t\"\nchannels = 2\nout = \"b\"\n",
                    REGION,
                    b"[[bus]]\nname = \"b\"\nchannels = 2\nmode = \"play\"\nlane = [[0, 0], [4, 65536]]\n",
                    b"[master]\ngain = 32768\n",
                ],
            },
            File {
                name: "a.wav",
                parts: &[
                    STEREO_RIFF,
                    STEREO,
                    STEREO_DATA,
                    &[
                        0x90, 1, 0x70, 0xfe, 0x90, 1, 0x70, 0xfe, 0x90, 1, 0x70, 0xfe, 0x90, 1,
                        0x70, 0xfe,
                    ],
                    &[
                        0x90, 1, 0x70, 0xfe, 0x90, 1, 0x70, 0xfe, 0x90, 1, 0x70, 0xfe, 0x90, 1,
                        0x70, 0xfe,
                    ],
                ],
            },
        ],
        report: Some(Form {
            from: 1,
            channels: 2,
            ..TWO_CYCLES
        }),
        master: &[
            STEREO_RIFF,
            STEREO,
            STEREO_DATA,
            &[
                50, 0, 0xce, 0xff, 100, 0, 0x9c, 0xff, 150, 0, 0x6a, 0xff, 200, 0, 0x38, 0xff,
            ],
            &[
                200, 0, 0x38, 0xff, 200, 0, 0x38, 0xff, 200, 0, 0x38, 0xff, 0, 0, 0, 0,
            ],
        ],
        ..EXPORTED
    },
];
