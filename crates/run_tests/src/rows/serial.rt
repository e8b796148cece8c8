//! Runs without letters: an export, and runs whose transport goes by control lines.
use run_rows::{EIGHT, EXPORT, Row, SERIAL, WAIT_THEN_LOCATE};

pub(crate) const SERIALLY: &[Row] = &[
    EXPORT,
    Row {
        name: "export from six",
        from: Some(6),
        report: "report 1
format 48000 16 1 4 2
edit 1 locate 6
edit 2 roll
cycle 1 2 2 rolling 1 0 h0/-
cycle 2 2 2 rolling 1 1 h0/-
end 2
",
        master: &[700, 800, 0, 0, 0, 0, 0, 0],
        ..SERIAL
    },
    Row {
        name: "loop from start",
        control: "loop 2 5\nroll\n",
        replies: "ok 1\nok 2\n",
        report: "report 1
format 48000 16 1 4 2
edit 1 loop 2 5
edit 2 roll
cycle 1 2 2 rolling 1 0 h0/-
cycle 2 2 2 rolling 1 1 h0/-
end 2
",
        master: &[300, 400, 500, 300, 400, 500, 300, 400],
        ..SERIAL
    },
    WAIT_THEN_LOCATE,
    Row {
        name: "overwrite heard",
        control: "roll\nwait 1\nrgain t 1 32768\nwait 1\n",
        replies: "ok 1\ndone\nok 2\ndone\n",
        report: "report 1
format 48000 16 1 4 2
edit 1 roll
edit 2 rgain t 1 32768
cycle 1 1 1 rolling 0 0 h0/-
cycle 2 2 2 rolling 0 1 h2/-
end 2
",
        master: &[100, 200, 300, 400, 250, 300, 350, 400],
        ..SERIAL
    },
    Row {
        name: "target past the loop",
        control: "loop 2 5\nlocate 6\nroll\n",
        replies: "ok 1\nok 2\nok 3\n",
        report: "report 1
format 48000 16 1 4 2
edit 1 loop 2 5
edit 2 locate 6
edit 3 roll
cycle 1 3 3 rolling 2 0 h0/-
cycle 2 3 3 rolling 2 1 h0/-
end 2
",
        master: &[700, 800, 0, 0, 0, 0, 0, 0],
        ..SERIAL
    },
    Row {
        name: "loop off",
        control: "loop off\nloop 2 5\nloop off\nroll\n",
        replies: "refused no-loop\nok 1\nok 2\nok 3\n",
        report: "report 1
format 48000 16 1 4 2
edit 1 loop 2 5
edit 2 loop off
edit 3 roll
cycle 1 3 3 rolling 2 0 h0/-
cycle 2 3 3 rolling 2 1 h0/-
end 2
",
        master: &[600, 700, 800, 0, 0, 0, 0, 0],
        ..SERIAL
    },
];
