//! Rows that several tables begin with.
use crate::row::{EIGHT, Row, SERIAL};

/// The whole session, from its start.
pub const EXPORT: Row = Row {
    name: "base export",
    from: Some(0),
    report: "report 1
format 48000 16 1 4 2
edit 1 locate 0
edit 2 roll
cycle 1 2 2 rolling 1 0 h0/-
cycle 2 2 2 rolling 1 1 h0/-
end 2
",
    master: EIGHT,
    ..SERIAL
};

/// Control plays a block, locates to the second one, and quits after it.
pub const WAIT_THEN_LOCATE: Row = Row {
    name: "wait then locate",
    control: "roll\nwait 1\nlocate 4\nwait 1\nquit\n",
    replies: "ok 1\ndone\nok 2\ndone\nok 3\n",
    report: "report 1
format 48000 16 1 4 2
edit 1 roll
edit 2 locate 4
edit 3 quit
cycle 1 1 1 rolling 0 0 h0/-
cycle 2 2 2 rolling 1 0 h0/-
end 2
",
    master: EIGHT,
    ..SERIAL
};

/// Eight samples of an input.
pub const ONE_TO_EIGHT: &[u16] = &[1, 2, 3, 4, 5, 6, 7, 8];

/// One take of two blocks.
pub const ONE_TAKE: Row = Row {
    name: "record one take",
    input: ONE_TO_EIGHT,
    control: "arm t on\nrecord on\nroll\n",
    replies: "ok 1\nok 2\nok 3\n",
    report: "report 1
format 48000 16 1 4 2
edit 1 arm t on
edit 2 record on
edit 3 roll
cycle 1 3 3 rolling 0 0 h0/t1.0
cycle 2 3 3 rolling 0 1 h0/t1.1
end 2
",
    master: EIGHT,
    takes: &[Some(ONE_TO_EIGHT), None],
    ..SERIAL
};
