//! Exports that are played.
use super::row::{
    A, BASE, DATA, EXPORTED, Ends, FIRST, FORM, FORMAT, Form, HEAD, HEARD, PARTS, REGION, RIFF,
    Row, SOUND, SOURCE, TWO_CYCLES,
};
use crate::bench::File;
use cycle_journal::{Note, Play, State, Take};

const SILENT: Note = Note {
    play: Play::Silent,
    take: Take::Off,
};

pub(crate) const PLAYED: &[Row] = &[
    // the base session
    Row {
        files: &[BASE, A],
        master: SOURCE,
        ..EXPORTED
    },
    // a region inside is heard from its start: 300 to 600 from the third frame on
    Row {
        files: &[
            File {
                name: "s.toml",
                parts: &[
                    HEAD,
                    FORM,
                    PARTS,
                    b"[[track.region]]\nid = 1\nsource = \"a\"\nstart = 2\nlength = 4\nat = 2\n",
                ],
            },
            A,
        ],
        master: &[
            RIFF,
            FORMAT,
            DATA,
            &[0, 0, 0, 0, 0x2c, 1, 0x90, 1, 0xf4, 1, 0x58, 2, 0, 0, 0, 0],
        ],
        ..EXPORTED
    },
    // from six on 700 and 800, and then silence
    Row {
        words: &["export", "--", "s.toml", "6", "2"],
        files: &[BASE, A],
        report: Some(Form {
            from: 6,
            ..TWO_CYCLES
        }),
        master: &[
            RIFF,
            FORMAT,
            DATA,
            &[0xbc, 2, 0x20, 3, 0, 0, 0, 0, 0, 0, 0, 0, 0, 0, 0, 0],
        ],
        ..EXPORTED
    },
    // a session of no track is silent: 52 bytes
    Row {
        words: &["export", "s.toml", "0", "1"],
        files: &[File {
            name: "s.toml",
            parts: &[HEAD, FORM],
        }],
        report: Some(Form {
            cycles: 1,
            ..TWO_CYCLES
        }),
        master: &[
            b"RIFF\x2c\0\0\0WAVEfmt \x10\0\0\0",
            FORMAT,
            b"data\x08\0\0\0\0\0\0\0\0\0\0\0",
        ],
        states: &[FIRST],
        notes: &[],
        ..EXPORTED
    },
    // two loud tracks, of 30,000 each, are clipped at 32,767
    Row {
        files: &[
            File {
                name: "s.toml",
                parts: &[
                    HEAD,
                    FORM,
                    PARTS,
                    REGION,
                    b"[[track]]\nname = \"u\"\nchannels = 1\n",
                    b"[[track.region]]\nid = 2\nsource = \"a\"\nlength = 8\nat = 0\n",
                ],
            },
            File {
                name: "a.wav",
                parts: &[
                    RIFF,
                    FORMAT,
                    DATA,
                    &[
                        0x30, 0x75, 0x30, 0x75, 0x30, 0x75, 0x30, 0x75, 0x30, 0x75, 0x30, 0x75,
                        0x30, 0x75, 0x30, 0x75,
                    ],
                ],
            },
        ],
        master: &[
            RIFF,
            FORMAT,
            DATA,
            &[
                0xff, 0x7f, 0xff, 0x7f, 0xff, 0x7f, 0xff, 0x7f, 0xff, 0x7f, 0xff, 0x7f, 0xff, 0x7f,
                0xff, 0x7f,
            ],
        ],
        notes: &[HEARD, HEARD],
        ..EXPORTED
    },
    // an odd chunk before the sound is passed
    Row {
        files: &[
            BASE,
            File {
                name: "a.wav",
                parts: &[RIFF, FORMAT, b"LIST\x03\0\0\0abc\0", DATA, SOUND],
            },
        ],
        master: SOURCE,
        ..EXPORTED
    },
    // a sound that fails to be read is never rolled
    Row {
        files: &[BASE, A],
        bad_reads: &[("a.wav", 44)],
        ends: Ends::ReadFault,
        number: 4,
        report: None,
        out: b"report 1
format 48000 16 1 4 2
edit 1 locate 0
edit 2 roll
cycle 1 2 2 seeking 1 1 -/-
cycle 2 2 2 seeking 1 1 -/-
end 2
error read-fault
",
        master: &[RIFF, FORMAT, DATA, &[0; 16]],
        states: &[
            State::Seeking { track: 0, tail: 1 },
            State::Seeking { track: 0, tail: 1 },
        ],
        notes: &[SILENT],
        ..EXPORTED
    },
    // a third write that fails leaves the front
    Row {
        files: &[BASE, A],
        bad_writes: &[3],
        ends: Ends::MasterFault,
        number: 7,
        out: b"error master-fault\n",
        master: &[RIFF, FORMAT, DATA, &[0x64, 0, 0xc8, 0, 0x2c, 1, 0x90, 1]],
        states: &[FIRST],
        ..EXPORTED
    },
];
