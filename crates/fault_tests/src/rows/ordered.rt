//! Runs of which two things fail, and those of which the end of out isn't written: the status is that of the first.
use run_rows::{EXPORT, Fails, NOTHING, ONE_TAKE, Row, WAIT_THEN_LOCATE};

const MASTER_FIRST: Row = Row {
    name: "master before out",
    fails: Fails {
        master: &[3],
        out: &[1],
        ..NOTHING
    },
    status: 7,
    report: "",
    stands: Some(52),
    ..EXPORT
};

pub(crate) const ORDERED: &[Row] = &[
    MASTER_FIRST,
    // the report is written, and its line isn't
    Row {
        name: "master before its line",
        fails: Fails {
            master: &[3],
            out: &[2],
            ..NOTHING
        },
        report: "report 1
format 48000 16 1 4 2
edit 1 locate 0
edit 2 roll
cycle 1 2 2 rolling 1 0 h0/-
end 1
",
        ..MASTER_FIRST
    },
    Row {
        name: "control before out",
        fails: Fails {
            control: &[1],
            out: &[1],
            ..NOTHING
        },
        status: 8,
        replies: "",
        report: "",
        master: &[0; 8],
        ..WAIT_THEN_LOCATE
    },
    // the replies stand
    Row {
        name: "report fails",
        fails: Fails {
            out: &[6],
            ..NOTHING
        },
        status: 9,
        report: "",
        ..WAIT_THEN_LOCATE
    },
    Row {
        name: "report of a take fails",
        fails: Fails {
            out: &[4],
            ..NOTHING
        },
        status: 9,
        report: "",
        ..ONE_TAKE
    },
    // after the second block has failed to be read, the master's silence fails to be written
    Row {
        name: "input before master",
        fails: Fails {
            input: &[6],
            master: &[3],
            ..NOTHING
        },
        status: 6,
        report: "report 1
format 48000 16 1 4 2
edit 1 arm t on
edit 2 record on
edit 3 roll
cycle 1 3 3 rolling 0 0 h0/t1.0
end 1
",
        line: "error input-fault\n",
        stands: Some(52),
        takes: &[Some(&[1, 2, 3, 4]), None],
        ..ONE_TAKE
    },
];
