//! Runs by words of their own.
use super::lettered::SHORT_AFTER_FIRST;
use run_rows::{EXPORT, Row, SERIAL};

const USAGE: Row = Row {
    status: 1,
    line: "error usage\n",
    stands: Some(0),
    ..SERIAL
};

pub(crate) const WORDED: &[Row] = &[
    Row {
        name: "equals sign",
        words: &["play", "--steps=cbbpp", "s.toml", "3"],
        ..SHORT_AFTER_FIRST
    },
    Row {
        name: "double dash",
        words: &["export", "--", "s.toml", "0", "2"],
        ..EXPORT
    },
    Row {
        name: "serial twice",
        words: &["play", "s.toml", "2", "--serial", "--serial"],
        ..USAGE
    },
    Row {
        name: "two ways to take turns",
        words: &["play", "s.toml", "2", "--serial", "--seed", "0"],
        ..USAGE
    },
    Row {
        name: "no such letter",
        words: &["play", "s.toml", "2", "--steps", "cbx"],
        ..USAGE
    },
    // a play with threads isn't built yet
    Row {
        name: "on threads",
        words: &["play", "s.toml", "2"],
        ..USAGE
    },
    Row {
        name: "on threads with patience",
        words: &["play", "s.toml", "2", "--patience", "5"],
        ..USAGE
    },
];
