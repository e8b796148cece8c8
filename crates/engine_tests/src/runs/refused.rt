//! Exports that play nothing.
use super::row::{
    A, BASE, DATA, EXPORT, Ends, FORM, FORMAT, HEAD, PARTS, REGION, RIFF, Row, SOUND,
};
use crate::bench::File;
use session_run::FileRefusal;
use wav_codec::WavRefusal;

/// The base session with a block of no frames.
pub(crate) const NO_BLOCK: File = File {
    name: "s.toml",
    parts: &[HEAD, b"block = 0\nbits = 16\n", PARTS, REGION],
};

pub(crate) const REFUSED: &[Row] = &[
    // two words are no command
    Row {
        words: &["export", "s.toml"],
        files: &[BASE, A],
        bad_reads: &[],
        bad_writes: &[],
        ends: Ends::Usage,
        number: 1,
        report: None,
        out: b"error usage\n",
        master: &[],
        states: &[],
        notes: &[],
    },
    // the same, and the line that says so can't be written
    Row {
        words: &["export", "s.toml"],
        files: &[BASE, A],
        bad_reads: &[],
        bad_writes: &[1],
        ends: Ends::Usage,
        number: 1,
        report: None,
        out: b"",
        master: &[],
        states: &[],
        notes: &[],
    },
    // a session of 24 bits, and an absent source
    Row {
        words: EXPORT,
        files: &[File {
            name: "s.toml",
            parts: &[HEAD, b"block = 4\nbits = 24\n", PARTS, REGION],
        }],
        bad_reads: &[],
        bad_writes: &[],
        ends: Ends::Source(FileRefusal::Absent),
        number: 3,
        report: None,
        out: b"error source a absent\n",
        master: &[],
        states: &[],
        notes: &[],
    },
    // an absent session
    Row {
        words: EXPORT,
        files: &[],
        bad_reads: &[],
        bad_writes: &[],
        ends: Ends::Absent,
        number: 2,
        report: None,
        out: b"error session absent\n",
        master: &[],
        states: &[],
        notes: &[],
    },
    // a block of no frames
    Row {
        words: EXPORT,
        files: &[NO_BLOCK],
        bad_reads: &[],
        bad_writes: &[],
        ends: Ends::BlockRange,
        number: 2,
        report: None,
        out: b"error session range session 1 block\n",
        master: &[],
        states: &[],
        notes: &[],
    },
    // an absent source
    Row {
        words: EXPORT,
        files: &[BASE],
        bad_reads: &[],
        bad_writes: &[],
        ends: Ends::Source(FileRefusal::Absent),
        number: 3,
        report: None,
        out: b"error source a absent\n",
        master: &[],
        states: &[],
        notes: &[],
    },
    // a source cut short, with its counts
    Row {
        words: EXPORT,
        files: &[
            BASE,
            File {
                name: "a.wav",
                parts: &[
                    RIFF,
                    FORMAT,
                    DATA,
                    &[0x64, 0, 0xc8, 0, 0x2c, 1, 0x90, 1, 0xf4, 1],
                ],
            },
        ],
        bad_reads: &[],
        bad_writes: &[],
        ends: Ends::Source(FileRefusal::Wav(WavRefusal::Truncated { want: 16, have: 10 })),
        number: 3,
        report: None,
        out: b"error source a truncated 16 10\n",
        master: &[],
        states: &[],
        notes: &[],
    },
    // the same behind an odd list chunk
    Row {
        words: EXPORT,
        files: &[
            BASE,
            File {
                name: "a.wav",
                parts: &[
                    RIFF,
                    FORMAT,
                    b"LIST\x03\0\0\0abc\0",
                    DATA,
                    &[0x64, 0, 0xc8, 0, 0x2c, 1, 0x90, 1, 0xf4, 1],
                ],
            },
        ],
        bad_reads: &[],
        bad_writes: &[],
        ends: Ends::Source(FileRefusal::Wav(WavRefusal::Truncated { want: 16, have: 10 })),
        number: 3,
        report: None,
        out: b"error source a truncated 16 10\n",
        master: &[],
        states: &[],
        notes: &[],
    },
    // a source of floats, with its tag
    Row {
        words: EXPORT,
        files: &[
            BASE,
            File {
                name: "a.wav",
                parts: &[
                    RIFF,
                    &[3, 0, 1, 0, 0x80, 0xbb, 0, 0, 0, 0x77, 1, 0, 2, 0, 16, 0],
                    DATA,
                    SOUND,
                ],
            },
        ],
        bad_reads: &[],
        bad_writes: &[],
        ends: Ends::Source(FileRefusal::Wav(WavRefusal::Format(3))),
        number: 3,
        report: None,
        out: b"error source a format 3\n",
        master: &[],
        states: &[],
        notes: &[],
    },
    // a session that fails to be read
    Row {
        words: EXPORT,
        files: &[BASE, A],
        bad_reads: &[("s.toml", 0)],
        bad_writes: &[],
        ends: Ends::ReadFault,
        number: 4,
        report: None,
        out: b"error read-fault\n",
        master: &[],
        states: &[],
        notes: &[],
    },
    // the shape of a fade in version 1
    Row {
        words: EXPORT,
        files: &[
            File {
                name: "s.toml",
                parts: &[
                    HEAD,
                    FORM,
                    PARTS,
                    REGION,
                    b"fade_in = 4\nshape_in = \"slow\"\n",
                ],
            },
            A,
        ],
        bad_reads: &[],
        bad_writes: &[],
        ends: Ends::UnknownInRegion,
        number: 2,
        report: None,
        out: b"error session unknown region 1 1\n",
        master: &[],
        states: &[],
        notes: &[],
    },
];
