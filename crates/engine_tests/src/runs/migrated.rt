//! Migrates that are refused or fail.
use super::refused::NO_BLOCK;
use super::row::{BASE, Ends, Row};
use crate::bench::File;

const MIGRATE: &[&str] = &["migrate", "s.toml"];

/// What ends before a text is whole.
pub(crate) const MIGRATED: &[Row] = &[
    // a migrate of no session
    Row {
        words: &["migrate"],
        files: &[BASE],
        bad_reads: &[],
        bad_writes: &[],
        ends: Ends::Usage,
        number: 1,
        report: None,
        out: b"error usage\n",
        master: &[],
        states: &[],
        notes: &[],
    },
    // of two words
    Row {
        words: &["migrate", "s.toml", "t.toml"],
        files: &[BASE],
        bad_reads: &[],
        bad_writes: &[],
        ends: Ends::Usage,
        number: 1,
        report: None,
        out: b"error usage\n",
        master: &[],
        states: &[],
        notes: &[],
    },
    // of a path
    Row {
        words: &["migrate", "../s.toml"],
        files: &[BASE],
        bad_reads: &[],
        bad_writes: &[],
        ends: Ends::Usage,
        number: 1,
        report: None,
        out: b"error usage\n",
        master: &[],
        states: &[],
        notes: &[],
    },
    // with an option
    Row {
        words: &["migrate", "-s", "s.toml"],
        files: &[BASE],
        bad_reads: &[],
        bad_writes: &[],
        ends: Ends::Usage,
        number: 1,
        report: None,
        out: b"error usage\n",
        master: &[],
        states: &[],
        notes: &[],
    },
    // of an absent session
    Row {
        words: MIGRATE,
        files: &[],
        bad_reads: &[],
        bad_writes: &[],
        ends: Ends::Absent,
        number: 2,
        report: None,
        out: b"error session absent\n",
        master: &[],
        states: &[],
        notes: &[],
    },
    // of a block of no frames
    Row {
        words: MIGRATE,
        files: &[NO_BLOCK],
        bad_reads: &[],
        bad_writes: &[],
        ends: Ends::BlockRange,
        number: 2,
        report: None,
        out: b"error session range session 1 block\n",
        master: &[],
        states: &[],
        notes: &[],
    },
    // the same behind the marker
    Row {
        words: &["migrate", "--", "s.toml"],
        files: &[NO_BLOCK],
        bad_reads: &[],
        bad_writes: &[],
        ends: Ends::BlockRange,
        number: 2,
        report: None,
        out: b"error session range session 1 block\n",
        master: &[],
        states: &[],
        notes: &[],
    },
    // of a session that fails to be read
    Row {
        words: MIGRATE,
        files: &[BASE],
        bad_reads: &[("s.toml", 0)],
        bad_writes: &[],
        ends: Ends::ReadFault,
        number: 4,
        report: None,
        out: b"error read-fault\n",
        master: &[],
        states: &[],
        notes: &[],
    },
    // a migrate whose out fails
    Row {
        words: MIGRATE,
        files: &[BASE],
        bad_reads: &[],
        bad_writes: &[1],
        ends: Ends::OutFault,
        number: 9,
        report: None,
        out: b"",
        master: &[],
        states: &[],
        notes: &[],
    },
];
