//! Runs of which one object fails, and what stands of them.
use run_rows::{EIGHT, EXPORT, Fails, NOTHING, ONE_TAKE, Row, WAIT_THEN_LOCATE};

pub(crate) const FAILING: &[Row] = &[
    Row {
        name: "read fault at data",
        fails: Fails {
            reads: Some(("a.wav", 44)),
            ..NOTHING
        },
        status: 4,
        report: "report 1
format 48000 16 1 4 2
edit 1 locate 0
edit 2 roll
cycle 1 2 2 seeking 1 1 -/-
cycle 2 2 2 seeking 1 1 -/-
end 2
",
        line: "error read-fault\n",
        master: &[0; 8],
        ..EXPORT
    },
    Row {
        name: "master fails at once",
        fails: Fails {
            master: &[1],
            ..NOTHING
        },
        status: 7,
        report: "report 1
format 48000 16 1 4 2
edit 1 locate 0
edit 2 roll
end 0
",
        line: "error master-fault\n",
        stands: Some(0),
        ..EXPORT
    },
    Row {
        name: "master fails in a block",
        fails: Fails {
            master: &[3],
            ..NOTHING
        },
        status: 7,
        report: "report 1
format 48000 16 1 4 2
edit 1 locate 0
edit 2 roll
cycle 1 2 2 rolling 1 0 h0/-
end 1
",
        line: "error master-fault\n",
        stands: Some(52),
        ..EXPORT
    },
    Row {
        name: "control fails at once",
        fails: Fails {
            control: &[1],
            ..NOTHING
        },
        status: 8,
        replies: "",
        report: "report 1
format 48000 16 1 4 2
cycle 1 0 0 stopped -/-
cycle 2 0 0 stopped -/-
end 2
",
        line: "error control-fault\n",
        master: &[0; 8],
        ..WAIT_THEN_LOCATE
    },
    // the first reply isn't written: control ends there, the rest is played, and nothing more is written
    Row {
        name: "out fails at once",
        fails: Fails {
            out: &[1],
            ..NOTHING
        },
        status: 9,
        replies: "",
        report: "",
        ..WAIT_THEN_LOCATE
    },
    Row {
        name: "out fails at its third reply",
        fails: Fails {
            out: &[3],
            ..NOTHING
        },
        status: 9,
        replies: "ok 1\ndone\n",
        report: "",
        ..WAIT_THEN_LOCATE
    },
    // the first read is that of the head, and nothing is played then
    Row {
        name: "input fails at once",
        fails: Fails {
            input: &[1],
            ..NOTHING
        },
        status: 6,
        report: "",
        line: "error input-fault\n",
        stands: Some(0),
        ..EXPORT
    },
    // four reads are the head's: the sixth one is that of the second block
    Row {
        name: "input fails in a block",
        fails: Fails {
            input: &[6],
            ..NOTHING
        },
        status: 6,
        report: "report 1
format 48000 16 1 4 2
edit 1 arm t on
edit 2 record on
edit 3 roll
cycle 1 3 3 rolling 0 0 h0/t1.0
end 1
",
        line: "error input-fault\n",
        master: &[100, 200, 300, 400, 0, 0, 0, 0],
        takes: &[Some(&[1, 2, 3, 4]), None],
        ..ONE_TAKE
    },
    Row {
        name: "take write fails",
        fails: Fails {
            writes: Some(("take-t-1.wav", 0)),
            ..NOTHING
        },
        status: 5,
        line: "error write-fault\n",
        master: EIGHT,
        takes: &[None, None],
        ..ONE_TAKE
    },
];
