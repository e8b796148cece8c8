//! Runs without letters whose control is refused, waits or ends early.
use run_rows::{EIGHT, Row, SERIAL};

// The base session with busses b1, into the master, and b2, into b1.
const BUSSES: &str = r#"[session]
version = 1
rate = 48000
bits = 16
channels = 1
block = 4
depth = 2

[[source]]
name = "a"
file = "a.wav"
channels = 1

[[track]]
name = "t"
channels = 1
input = 0

[[track.region]]
id = 1
source = "a"
length = 8
at = 0

[[bus]]
name = "b1"
channels = 1

[[bus]]
name = "b2"
channels = 1
out = "b1"
"#;

pub(crate) const CONTROLLED: &[Row] = &[
    Row {
        name: "sync both ways",
        cycles: 1,
        control: "roll\nsync\nstop\nsync\n",
        replies: "ok 1\nsynced 1 1\nok 2\nnot synced 2\n",
        report: "report 1
format 48000 16 1 4 1
edit 1 roll
edit 2 stop
cycle 1 1 1 rolling 0 0 h0/-
end 1
",
        master: &[100, 200, 300, 400],
        ..SERIAL
    },
    Row {
        name: "quit at once",
        control: "quit\n",
        replies: "ok 1\n",
        report: "report 1
format 48000 16 1 4 2
edit 1 quit
end 0
",
        master: &[0; 8],
        ..SERIAL
    },
    Row {
        name: "no line after a quit",
        control: "roll\nwait 1\nquit\nstop\nfly\n",
        replies: "ok 1\ndone\nok 2\n",
        report: "report 1
format 48000 16 1 4 2
edit 1 roll
edit 2 quit
cycle 1 1 1 rolling 0 0 h0/-
end 1
",
        master: &[100, 200, 300, 400, 0, 0, 0, 0],
        ..SERIAL
    },
    Row {
        name: "no control",
        report: "report 1
format 48000 16 1 4 2
cycle 1 0 0 stopped -/-
cycle 2 0 0 stopped -/-
end 2
",
        master: &[0; 8],
        ..SERIAL
    },
    Row {
        name: "add far",
        cycles: 1,
        control: "add t 9 a 0 2 1099511627775 0\nadd t 9 a 0 1 1099511627775 0\n",
        replies: "refused far 1099511627775\nok 1\n",
        report: "report 1
format 48000 16 1 4 1
edit 1 add t 9 a 0 1 1099511627775 0
cycle 1 1 1 stopped -/-
end 1
",
        master: &[0; 4],
        ..SERIAL
    },
    Row {
        name: "cycle refused",
        session: BUSSES,
        cycles: 1,
        control: "connect b1 b2\n",
        replies: "refused cycle b1\n",
        report: "report 1
format 48000 16 1 4 1
cycle 1 0 0 stopped -/-
end 1
",
        master: &[0; 4],
        ..SERIAL
    },
    Row {
        name: "three refused lines",
        cycles: 1,
        control: "gain t 262145\nwait 0\nfly\n",
        replies: "refused gain 262145\nrefused number 2\nrefused not-command\n",
        report: "report 1
format 48000 16 1 4 1
cycle 1 0 0 stopped -/-
end 1
",
        master: &[0; 4],
        ..SERIAL
    },
    Row {
        name: "waits past the end",
        control: "roll\nwait 3\nlocate 4\nwait 1",
        replies: "ok 1\ndone\nok 2\ndone\n",
        report: "report 1
format 48000 16 1 4 2
edit 1 roll
edit 2 locate 4
cycle 1 1 1 rolling 0 0 h0/-
cycle 2 1 1 rolling 0 1 h0/-
end 2
",
        master: EIGHT,
        ..SERIAL
    },
];
