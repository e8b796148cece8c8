//! The canonical line of each edit, written out by hand.
use crate::row::row_holds;
use arrayvec::ArrayString;
use edit_script::text_of;
use ses_units::{Mode, Name, Shape};
use session_model::Edit;

// Edits of no route, each with its line.
const PLAIN: [(Edit, &str); 8] = [
    (Edit::Roll, "roll"),
    (Edit::Stop, "stop"),
    (Edit::Quit, "quit"),
    (Edit::Recording { on: true }, "record on"),
    (Edit::Recording { on: false }, "record off"),
    (Edit::Locate { to: 48_000 }, "locate 48000"),
    (
        Edit::Loop {
            from: 7,
            to: 96_000,
        },
        "loop 7 96000",
    ),
    (Edit::LoopOff, "loop off"),
];

fn routes(track: Name, target: Name) -> [(Edit, &'static str); 12] {
    let (route, on) = (track, true);
    [
        (Edit::Arm { track, on }, "arm lead on"),
        (Edit::Solo { track, on: false }, "solo lead off"),
        (Edit::Mute { route, on }, "mute lead on"),
        (
            Edit::Gain {
                route,
                gain: 65_536,
            },
            "gain lead 65536",
        ),
        (
            Edit::Pan {
                route,
                left: 1,
                right: 2,
            },
            "pan lead 1 2",
        ),
        (
            Edit::Mode {
                route,
                mode: Mode::Manual,
            },
            "mode lead manual",
        ),
        (
            Edit::Mode {
                route,
                mode: Mode::Play,
            },
            "mode lead play",
        ),
        (
            Edit::Point {
                route,
                at: 3,
                gain: 4,
            },
            "point lead 3 4",
        ),
        (Edit::Unpoint { route, at: 5 }, "unpoint lead 5"),
        (Edit::Connect { route, target }, "connect lead echo"),
        (
            Edit::Send {
                route,
                target,
                pre: true,
                gain: 6,
            },
            "send lead echo pre 6",
        ),
        (Edit::Unsend { route, target }, "unsend lead echo"),
    ]
}

fn regions(track: Name, source: Name) -> [(Edit, &'static str); 9] {
    let (id, shape_in, shape_out) = (12, Shape::Linear, Shape::Slow);
    [
        (
            Edit::Add {
                track,
                id,
                source,
                start: 1,
                length: 2,
                at: 3,
                layer: 4,
            },
            "add lead 12 echo 1 2 3 4",
        ),
        (Edit::Remove { track, id }, "remove lead 12"),
        (Edit::Move { track, id, at: 5 }, "move lead 12 5"),
        (
            Edit::Trim {
                track,
                id,
                start: 6,
                length: 7,
            },
            "trim lead 12 6 7",
        ),
        (
            Edit::Layer {
                track,
                id,
                layer: 8,
            },
            "layer lead 12 8",
        ),
        (
            Edit::Opaque {
                track,
                id,
                on: true,
            },
            "opaque lead 12 on",
        ),
        (Edit::RegionGain { track, id, gain: 9 }, "rgain lead 12 9"),
        (
            Edit::Fade {
                track,
                id,
                fade_in: 10,
                fade_out: 11,
            },
            "fade lead 12 10 11",
        ),
        (
            Edit::Shape {
                track,
                id,
                shape_in,
                shape_out,
            },
            "shape lead 12 linear slow",
        ),
    ]
}

// The longest line there is.
fn longest(name: Name) -> Edit {
    Edit::Add {
        track: name,
        id: 999_999,
        source: name,
        start: u64::MAX,
        length: u64::MAX,
        at: u64::MAX,
        layer: 65_535,
    }
}

fn is_printed(edit: &Edit, want: &str) -> bool {
    // What stood there before is gone.
    let mut text = ArrayString::new();
    text.push_str("before");
    text_of(edit, &mut text);
    text.as_str() == want
}

#[test]
fn each_edit_has_its_line(rt: HostRuntime) {
    let (Ok(lead), Ok(echo)) = (Name::new("lead"), Name::new("echo")) else {
        row_holds(&rt, 0, false);
        return;
    };
    for (at, (edit, want)) in PLAIN.iter().enumerate() {
        row_holds(&rt, at, is_printed(edit, want));
    }
    for (at, (edit, want)) in routes(lead, echo).iter().enumerate() {
        row_holds(&rt, at, is_printed(edit, want));
    }
    for (at, (edit, want)) in regions(lead, echo).iter().enumerate() {
        row_holds(&rt, at, is_printed(edit, want));
    }
}

#[test]
fn the_longest_line_has_129_bytes(rt: HostRuntime) {
    let Ok(name) = Name::new("abcdefghijklmnopqrstuvwx") else {
        row_holds(&rt, 0, false);
        return;
    };
    let mut text = ArrayString::new();
    text_of(&longest(name), &mut text);
    row_holds(&rt, 1, text.len() == 129);
}
