//! Runs by letters, which then go on serially.
use run_rows::{LONG, Row, SERIAL};

/// The second block isn't there yet where its cycle is played.
pub(crate) const SHORT_AFTER_FIRST: Row = Row {
    name: "short after first",
    session: LONG,
    source: &[
        100, 200, 300, 400, 500, 600, 700, 800, 900, 1000, 1100, 1200,
    ],
    cycles: 3,
    letters: "cbbpp",
    control: "roll\n",
    replies: "ok 1\n",
    report: "report 1
format 48000 16 1 4 3
edit 1 roll
cycle 1 1 1 rolling 0 0 h0/-
cycle 2 1 1 rolling 0 1 s2/-
cycle 3 1 1 rolling 0 2 h0/-
end 3
",
    master: &[100, 200, 300, 400, 0, 0, 0, 0, 900, 1000, 1100, 1200],
    ..SERIAL
};

pub(crate) const LETTERED: &[Row] = &[
    SHORT_AFTER_FIRST,
    Row {
        name: "seek one cycle",
        letters: "cp",
        control: "roll\n",
        replies: "ok 1\n",
        report: "report 1
format 48000 16 1 4 2
edit 1 roll
cycle 1 1 0 seeking 1 0 -/-
cycle 2 1 1 rolling 0 0 h0/-
end 2
",
        master: &[0, 0, 0, 0, 100, 200, 300, 400],
        ..SERIAL
    },
    Row {
        name: "mark held",
        cycles: 3,
        letters: "cbbgbpecbbpp",
        control: "roll\nlocate 4\n",
        replies: "ok 1\nok 2\n",
        report: "report 1
format 48000 16 1 4 3
edit 1 roll
edit 2 locate 4
cycle 1 1 1 rolling 0 0 h0/-
cycle 2 1 1 rolling 0 1 h0/-
cycle 3 2 2 rolling 1 0 h0/-
end 3
",
        master: &[100, 200, 300, 400, 500, 600, 700, 800, 500, 600, 700, 800],
        ..SERIAL
    },
    Row {
        name: "starved at the start",
        letters: "pp",
        control: "roll\n",
        replies: "ok 1\n",
        report: "report 1
format 48000 16 1 4 2
edit 1 roll
cycle 1 0 0 stopped -/-
cycle 2 0 0 stopped -/-
end 2
",
        master: &[0; 8],
        ..SERIAL
    },
    Row {
        name: "starved seeking",
        cycles: 3,
        letters: "cppp",
        control: "roll\n",
        replies: "ok 1\n",
        report: "report 1
format 48000 16 1 4 3
edit 1 roll
cycle 1 1 0 seeking 1 0 -/-
cycle 2 1 0 seeking 1 0 -/-
cycle 3 1 0 seeking 1 0 -/-
end 3
",
        master: &[0; 12],
        ..SERIAL
    },
    // a letter past the asked cycles does nothing, but for those of butler and control
    Row {
        name: "letters past the end",
        cycles: 1,
        letters: "ppegpbc",
        control: "locate 4\nroll\n",
        replies: "ok 1\nok 2\n",
        report: "report 1
format 48000 16 1 4 1
edit 1 locate 4
edit 2 roll
cycle 1 0 0 stopped -/-
end 1
",
        master: &[0; 4],
        ..SERIAL
    },
];
