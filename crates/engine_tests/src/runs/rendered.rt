//! Renders of sessions.
use super::row::{A, BASE, DATA, Ends, FORM, FORMAT, HEAD, PARTS, REGION, RIFF, Row};
use crate::bench::File;
use session_run::FileRefusal;

const RENDER: &[&str] = &["render", "s.toml", "2", "3"];

// A file of three mono frames of 16 bits: 6 bytes of data, 50 in all.
const RIFF_OF_THREE: &[u8] = b"RIFF\x2a\0\0\0WAVEfmt \x10\0\0\0";

const DATA_OF_THREE: &[u8] = b"data\x06\0\0\0";

const SENDS: File = File {
    name: "s.toml",
    parts: &[
        HEAD,
        FORM,
        PARTS,
        b"gain = 32768\n[[track.send]]\nto = \"b\"\npre = true\n",
        REGION,
        b"[[bus]]\nname = \"b\"\nchannels = 1\n",
    ],
};

const WIDE: File = File {
    name: "s.toml",
    parts: &[
        b"[session]\nversion = 1\nrate = 48000\nchannels = 2\ndepth = 2\n",
        FORM,
        PARTS,
        b"right = 32768\n",
        REGION,
        b"[master]\ngain = 131072\n",
    ],
};

pub(crate) const RENDERED: &[Row] = &[
    // three frames of the base session from the third on: 300 400 500
    Row {
        words: RENDER,
        files: &[BASE, A],
        bad_reads: &[],
        bad_writes: &[],
        ends: Ends::Done,
        number: 0,
        report: None,
        out: b"",
        master: &[
            RIFF_OF_THREE,
            FORMAT,
            DATA_OF_THREE,
            &[0x2c, 1, 0x90, 1, 0xf4, 1],
        ],
        states: &[],
        notes: &[],
    },
    // 24 bits, past the end of the file: 700 and 800 times 256, silence, and a pad byte
    Row {
        words: &["render", "s.toml", "6", "3"],
        files: &[
            File {
                name: "s.toml",
                parts: &[HEAD, b"block = 4\nbits = 24\n", PARTS, REGION],
            },
            A,
        ],
        bad_reads: &[],
        bad_writes: &[],
        ends: Ends::Done,
        number: 0,
        report: None,
        out: b"",
        master: &[
            b"RIFF\x2e\0\0\0WAVEfmt \x10\0\0\0",
            &[1, 0, 1, 0, 0x80, 0xbb, 0, 0, 0x80, 0x32, 2, 0, 3, 0, 24, 0],
            b"data\x09\0\0\0",
            &[0, 0xbc, 2, 0, 0x20, 3, 0, 0, 0, 0],
        ],
        states: &[],
        notes: &[],
    },
    // half of each frame by the fader, and the whole by a send before it: 450 600 750
    Row {
        words: RENDER,
        files: &[SENDS, A],
        bad_reads: &[],
        bad_writes: &[],
        ends: Ends::Done,
        number: 0,
        report: None,
        out: b"",
        master: &[
            RIFF_OF_THREE,
            FORMAT,
            DATA_OF_THREE,
            &[0xc2, 1, 0x58, 2, 0xee, 2],
        ],
        states: &[],
        notes: &[],
    },
    // one channel into two, the second at half, and the master doubles both: 200 100, 400 200
    Row {
        words: &["render", "--", "s.toml", "0", "2"],
        files: &[WIDE, A],
        bad_reads: &[],
        bad_writes: &[],
        ends: Ends::Done,
        number: 0,
        report: None,
        out: b"",
        master: &[
            b"RIFF\x2c\0\0\0WAVEfmt \x10\0\0\0",
            &[1, 0, 2, 0, 0x80, 0xbb, 0, 0, 0, 0xee, 2, 0, 4, 0, 16, 0],
            b"data\x08\0\0\0",
            &[0xc8, 0, 0x64, 0, 0x90, 1, 0xc8, 0],
        ],
        states: &[],
        notes: &[],
    },
    // the first write of the master fails
    Row {
        words: RENDER,
        files: &[BASE, A],
        bad_reads: &[],
        bad_writes: &[1],
        ends: Ends::MasterFault,
        number: 7,
        report: None,
        // that of out too
        out: b"",
        master: &[],
        states: &[],
        notes: &[],
    },
    // the write of the frames fails
    Row {
        words: RENDER,
        files: &[BASE, A],
        bad_reads: &[],
        bad_writes: &[2],
        ends: Ends::MasterFault,
        number: 7,
        report: None,
        out: b"error master-fault\n",
        master: &[RIFF_OF_THREE, FORMAT, DATA_OF_THREE],
        states: &[],
        notes: &[],
    },
    // a read of the frames fails behind the header
    Row {
        words: &["render", "s.toml", "0", "8"],
        files: &[BASE, A],
        bad_reads: &[("a.wav", 44)],
        bad_writes: &[],
        ends: Ends::ReadFault,
        number: 4,
        report: None,
        out: b"error read-fault\n",
        master: &[RIFF, FORMAT, DATA],
        states: &[],
        notes: &[],
    },
    // no file of the source
    Row {
        words: RENDER,
        files: &[BASE],
        bad_reads: &[],
        bad_writes: &[],
        ends: Ends::Source(FileRefusal::Absent),
        number: 3,
        report: None,
        out: b"error source a absent\n",
        master: &[],
        states: &[],
        notes: &[],
    },
    // no frames
    Row {
        words: &["render", "s.toml", "2", "0"],
        files: &[BASE, A],
        bad_reads: &[],
        bad_writes: &[],
        ends: Ends::Usage,
        number: 1,
        report: None,
        out: b"error usage\n",
        master: &[],
        states: &[],
        notes: &[],
    },
];
