//! The rows of masters. Their numbers are worked by hand from the rules of routes, sends and lanes.
use super::Row;

const BUS: &str = "[[bus]]\nname = \"b\"\nchannels = 1\n";

const PLAIN: Row = Row {
    name: "a track alone",
    channels: 1,
    tracks: &[""],
    busses: "",
    samples: &[400],
    want: &[400, 400],
};

// Two tracks of 30,000 as files of 16 bits hold it: 256 times that at 24-bit scale.
pub(super) const LOUD: Row = Row {
    name: "two loud tracks",
    tracks: &["", ""],
    samples: &[7_680_000, 7_680_000],
    want: &[15_360_000],
    ..PLAIN
};

pub(crate) const ROWS: &[Row] = &[
    PLAIN,
    LOUD,
    Row {
        name: "a send before the fader, beside the track's own output",
        tracks: &["gain = 32768\nsend = [{ to = \"b\", pre = true, gain = 65536 }]"],
        busses: BUS,
        want: &[600, 600],
        ..PLAIN
    },
    Row {
        name: "a send after the fader, beside the track's own output",
        tracks: &["gain = 32768\nsend = [{ to = \"b\", pre = false, gain = 65536 }]"],
        busses: BUS,
        ..PLAIN
    },
    Row {
        name: "one channel into two",
        channels: 2,
        tracks: &["left = 65536\nright = 32768"],
        want: &[400, 200, 400, 200],
        ..PLAIN
    },
    Row {
        name: "the second of two tracks soloed",
        tracks: &["", "solo = true"],
        samples: &[100, 200],
        want: &[200, 200],
        ..PLAIN
    },
    Row {
        name: "the first of two tracks muted",
        tracks: &["mute = true", ""],
        samples: &[100, 200],
        want: &[200, 200],
        ..PLAIN
    },
    Row {
        name: "a lane falls",
        tracks: &["mode = \"play\"\nlane = [[0, 65536], [4, 0]]"],
        want: &[400, 300, 200, 100, 0],
        ..PLAIN
    },
];
