//! Checks of sessions and their sources.
use super::refused::NO_BLOCK;
use super::row::{A, BASE, Ends, FORM, HEAD, PARTS, REGION, Row};
use crate::bench::File;
use session_run::FileRefusal;

const CHECK: &[&str] = &["check", "s.toml"];

// The base session with one track and three busses more.
const DESK: File = File {
    name: "s.toml",
    parts: &[
        HEAD,
        FORM,
        PARTS,
        REGION,
        b"[[track]]\nname = \"u\"\nchannels = 1\n",
        b"[[bus]]\nname = \"b\"\nchannels = 1\nout = \"master\"\n",
        b"[[bus]]\nname = \"c\"\nchannels = 1\nout = \"b\"\n",
        b"[[bus]]\nname = \"d\"\nchannels = 1\nout = \"master\"\n",
    ],
};

pub(crate) const CHECKED: &[Row] = &[
    // the base session: one track, no bus, one source
    Row {
        words: CHECK,
        files: &[BASE, A],
        bad_reads: &[],
        bad_writes: &[],
        ends: Ends::Done,
        number: 0,
        report: None,
        out: b"ok 1 0 1\n",
        master: &[],
        states: &[],
        notes: &[],
    },
    // two tracks, three busses, one source
    Row {
        words: CHECK,
        files: &[DESK, A],
        bad_reads: &[],
        bad_writes: &[],
        ends: Ends::Done,
        number: 0,
        report: None,
        out: b"ok 2 3 1\n",
        master: &[],
        states: &[],
        notes: &[],
    },
    // a session of nothing
    Row {
        words: CHECK,
        files: &[File {
            name: "s.toml",
            parts: &[HEAD, FORM],
        }],
        bad_reads: &[],
        bad_writes: &[],
        ends: Ends::Done,
        number: 0,
        report: None,
        out: b"ok 0 0 0\n",
        master: &[],
        states: &[],
        notes: &[],
    },
    // the base session at 24 bits
    Row {
        words: CHECK,
        files: &[
            File {
                name: "s.toml",
                parts: &[HEAD, b"block = 4\nbits = 24\n", PARTS, REGION],
            },
            A,
        ],
        bad_reads: &[],
        bad_writes: &[],
        ends: Ends::Done,
        number: 0,
        report: None,
        out: b"ok 1 0 1\n",
        master: &[],
        states: &[],
        notes: &[],
    },
    // two words
    Row {
        words: &["check", "s.toml", "a.wav"],
        files: &[BASE, A],
        bad_reads: &[],
        bad_writes: &[],
        ends: Ends::Usage,
        number: 1,
        report: None,
        out: b"error usage\n",
        master: &[],
        states: &[],
        notes: &[],
    },
    // a path
    Row {
        words: &["check", "../s.toml"],
        files: &[BASE, A],
        bad_reads: &[],
        bad_writes: &[],
        ends: Ends::Usage,
        number: 1,
        report: None,
        out: b"error usage\n",
        master: &[],
        states: &[],
        notes: &[],
    },
    // an absent session
    Row {
        words: CHECK,
        files: &[A],
        bad_reads: &[],
        bad_writes: &[],
        ends: Ends::Absent,
        number: 2,
        report: None,
        out: b"error session absent\n",
        master: &[],
        states: &[],
        notes: &[],
    },
    // a block of no frames
    Row {
        words: CHECK,
        files: &[NO_BLOCK],
        bad_reads: &[],
        bad_writes: &[],
        ends: Ends::BlockRange,
        number: 2,
        report: None,
        out: b"error session range session 1 block\n",
        master: &[],
        states: &[],
        notes: &[],
    },
    // an absent source
    Row {
        words: CHECK,
        files: &[BASE],
        bad_reads: &[],
        bad_writes: &[],
        ends: Ends::Source(FileRefusal::Absent),
        number: 3,
        report: None,
        out: b"error source a absent\n",
        master: &[],
        states: &[],
        notes: &[],
    },
    // a source whose head fails to be read
    Row {
        words: CHECK,
        files: &[BASE, A],
        bad_reads: &[("a.wav", 0)],
        bad_writes: &[],
        ends: Ends::ReadFault,
        number: 4,
        report: None,
        out: b"error read-fault\n",
        master: &[],
        states: &[],
        notes: &[],
    },
    // the line of what it counts fails to be written
    Row {
        words: CHECK,
        files: &[BASE, A],
        bad_reads: &[],
        bad_writes: &[1],
        ends: Ends::OutFault,
        number: 9,
        report: None,
        out: b"",
        master: &[],
        states: &[],
        notes: &[],
    },
    // the line of an error does
    Row {
        words: CHECK,
        files: &[],
        bad_reads: &[],
        bad_writes: &[1],
        ends: Ends::Absent,
        number: 2,
        report: None,
        out: b"",
        master: &[],
        states: &[],
        notes: &[],
    },
];
