//! Runs whose track records.
use run_rows::{ONE_TAKE, Row};

const ONE_TO_TWELVE: &[u16] = &[1, 2, 3, 4, 5, 6, 7, 8, 9, 10, 11, 12];

// With no frame of input a take is silent.
const NO_INPUT: Row = Row {
    name: "no input",
    input: &[],
    takes: &[Some(&[0; 8]), None],
    ..ONE_TAKE
};

// The head of a file of one channel, 16 bits and 48,000 frames a second, with no frame behind it.
const NO_FRAMES: &[u8] =
    b"RIFF\x24\0\0\0WAVEfmt \x10\0\0\0\x01\0\x01\0\x80\xbb\0\0\0\x77\x01\0\x02\0\x10\0data\0\0\0\0";

pub(crate) const RECORDED: &[Row] = &[
    ONE_TAKE,
    // past the end of the input it is silent
    Row {
        name: "short input",
        input: &[1, 2, 3, 4, 5, 6],
        takes: &[Some(&[1, 2, 3, 4, 5, 6, 0, 0]), None],
        ..ONE_TAKE
    },
    NO_INPUT,
    Row {
        name: "no frames",
        input_bytes: Some(NO_FRAMES),
        ..NO_INPUT
    },
    Row {
        name: "lost block",
        input: ONE_TO_TWELVE,
        cycles: 3,
        letters: "cccbbppp",
        report: "report 1
format 48000 16 1 4 3
edit 1 arm t on
edit 2 record on
edit 3 roll
cycle 1 3 3 rolling 0 0 h0/t1.0
cycle 2 3 3 rolling 0 1 s2/t1.1
cycle 3 3 3 rolling 0 2 s2/l1.2.0
end 3
",
        master: &[100, 200, 300, 400, 0, 0, 0, 0, 0, 0, 0, 0],
        takes: &[Some(&[1, 2, 3, 4, 5, 6, 7, 8, 0, 0, 0, 0]), None],
        ..ONE_TAKE
    },
    Row {
        name: "middle edition unheard",
        control: "arm t on\nrecord on\nroll\nwait 1\nrecord off\nrecord on\n",
        replies: "ok 1\nok 2\nok 3\ndone\nok 4\nok 5\n",
        report: "report 1
format 48000 16 1 4 2
edit 1 arm t on
edit 2 record on
edit 3 roll
edit 4 record off
edit 5 record on
cycle 1 3 3 rolling 0 0 h0/t1.0
cycle 2 5 5 rolling 0 1 h0/t1.1
end 2
",
        ..ONE_TAKE
    },
    Row {
        name: "two takes",
        input: ONE_TO_TWELVE,
        cycles: 3,
        control: "arm t on\nrecord on\nroll\nwait 1\nrecord off\nwait 1\nrecord on\n",
        replies: "ok 1\nok 2\nok 3\ndone\nok 4\ndone\nok 5\n",
        report: "report 1
format 48000 16 1 4 3
edit 1 arm t on
edit 2 record on
edit 3 roll
edit 4 record off
edit 5 record on
cycle 1 3 3 rolling 0 0 h0/t1.0
cycle 2 4 4 rolling 0 1 h0/-
cycle 3 5 5 rolling 0 2 h0/t2.0
end 3
",
        master: &[100, 200, 300, 400, 500, 600, 700, 800, 0, 0, 0, 0],
        takes: &[Some(&[1, 2, 3, 4]), Some(&[9, 10, 11, 12])],
        ..ONE_TAKE
    },
];
