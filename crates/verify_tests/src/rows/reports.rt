//! Reports of which a line is none.
use crate::finished::{AT_ONCE, Check, Damage, QUIT};

pub(crate) const REPORTS: &[Check] = &[
    Check {
        name: "an end too many",
        run: QUIT,
        damage: Damage::Line(13, "end 3"),
        status: 11,
        out: "error bad-report 13\n",
    },
    Check {
        name: "an end too few",
        run: QUIT,
        damage: Damage::Line(13, "end 1"),
        status: 11,
        out: "error bad-report 13\n",
    },
    Check {
        name: "no first line",
        run: QUIT,
        damage: Damage::Line(6, "report 2"),
        status: 11,
        out: "error bad-report 14\n",
    },
    Check {
        name: "a form of three channels",
        run: QUIT,
        damage: Damage::Line(7, "format 48000 16 3 4 2"),
        status: 11,
        out: "error bad-report 7\n",
    },
    Check {
        name: "an edit left out",
        run: QUIT,
        damage: Damage::Line(9, "edit 3 quit"),
        status: 11,
        out: "error bad-report 9\n",
    },
    Check {
        name: "an edit with a leading zero",
        run: QUIT,
        damage: Damage::Line(9, "edit 2 locate 04"),
        status: 11,
        out: "error bad-report 9\n",
    },
    Check {
        name: "a wait is no edit",
        run: QUIT,
        damage: Damage::Line(9, "edit 2 wait 4"),
        status: 11,
        out: "error bad-report 9\n",
    },
    Check {
        name: "an entry left out",
        run: QUIT,
        damage: Damage::Line(11, "cycle 2 2 2 rolling 1 0 h0/-"),
        status: 11,
        out: "error bad-report 11\n",
    },
    Check {
        name: "an entry more than cycles",
        run: QUIT,
        damage: Damage::Line(13, "cycle 3 3 3 stopped -/-"),
        status: 11,
        out: "error bad-report 13\n",
    },
    Check {
        name: "a state of another name",
        run: QUIT,
        damage: Damage::Line(12, "cycle 2 2 2 running 1 0 h0/-"),
        status: 11,
        out: "error bad-report 12\n",
    },
    Check {
        name: "a note without a take",
        run: QUIT,
        damage: Damage::Line(12, "cycle 2 2 2 rolling 1 0 h0"),
        status: 11,
        out: "error bad-report 12\n",
    },
    Check {
        name: "a report without its last line feed",
        run: AT_ONCE,
        damage: Damage::CutReport(53),
        status: 11,
        out: "error bad-report 5\n",
    },
];
