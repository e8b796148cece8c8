//! Reports whose form or edits do not stand.
use crate::finished::{Check, Damage, QUIT, SOFTER};

pub(crate) const EDITS: &[Check] = &[
    Check {
        name: "another rate",
        run: QUIT,
        damage: Damage::Line(7, "format 44100 16 1 4 2"),
        status: 10,
        out: "error refuted 7\n",
    },
    Check {
        name: "other bits",
        run: QUIT,
        damage: Damage::Line(7, "format 48000 24 1 4 2"),
        status: 10,
        out: "error refuted 7\n",
    },
    Check {
        name: "two channels",
        run: QUIT,
        damage: Damage::Line(7, "format 48000 16 2 4 2"),
        status: 10,
        out: "error refuted 7\n",
    },
    Check {
        name: "another block",
        run: QUIT,
        damage: Damage::Line(7, "format 48000 16 1 2 2"),
        status: 10,
        out: "error refuted 7\n",
    },
    Check {
        name: "a cycle more",
        run: QUIT,
        damage: Damage::Line(7, "format 48000 16 1 4 3"),
        status: 10,
        out: "error refuted 7\n",
    },
    Check {
        name: "a route that is not there",
        run: QUIT,
        damage: Damage::Line(9, "edit 2 gain v 65536"),
        status: 10,
        out: "error refuted 9\n",
    },
    Check {
        name: "a locate too far",
        run: QUIT,
        damage: Damage::Line(9, "edit 2 locate 1099511627776"),
        status: 10,
        out: "error refuted 9\n",
    },
    Check {
        name: "an edit behind a quit",
        run: QUIT,
        damage: Damage::Line(9, "edit 2 quit"),
        status: 10,
        out: "error refuted 10\n",
    },
    Check {
        name: "a region that is not there",
        run: SOFTER,
        damage: Damage::Line(4, "edit 2 rgain t 2 32768"),
        status: 10,
        out: "error refuted 4\n",
    },
];
