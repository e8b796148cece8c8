//! Control with lines that are too long, that aren't text, or that are empty.
use run_rows::{Ended, Left, NOTHING, Row, SERIAL, left_by, ran_in, world_of};
use ses_io::MemSource;
use std::alloc::Global;
use std::process::Abort;
use std::sync::Wait;
use std::thread::Threads;

const HOSTILE_LINES: Row = Row {
    name: "hostile lines",
    cycles: 1,
    replies: "refused long\nok 1\nrefused text\nrefused number 3\n",
    report: "report 1
format 48000 16 1 4 1
edit 1 roll
cycle 1 1 1 rolling 0 0 h0/-
end 1
",
    master: &[100, 200, 300, 400],
    ..SERIAL
};

const EMPTY_LINES: Row = Row {
    name: "empty lines",
    cycles: 1,
    report: "report 1
format 48000 16 1 4 1
cycle 1 0 0 stopped -/-
end 1
",
    master: &[0; 4],
    ..SERIAL
};

// Control is read up to its limit, before which no quit has come.
const ENDLESS_LINE: Row = Row {
    name: "endless line",
    replies: "refused long\n",
    status: 17,
    line: "error control-too-long\n",
    ..EMPTY_LINES
};

// So many empty lines.
const ENDLESS_CONTROL: Row = Row {
    name: "endless control",
    status: 17,
    line: "error control-too-long\n",
    ..EMPTY_LINES
};

const LONGEST_LINE: Row = Row {
    name: "longest line",
    replies: "refused long\n",
    ..EMPTY_LINES
};

// As many bytes of one kind, and then these.
fn ran_under<R>(
    rt: &R,
    alloc: Global,
    row: &Row,
    many: usize,
    kind: u8,
    rest: &[u8],
) -> Option<Ended>
where
    R: Threads + Wait + Sync,
{
    let mut control = vec![in alloc; kind; many].ok()?;
    control.extend_from_slice(rest).ok()?;
    let mut world = world_of(alloc, row, &NOTHING).ok()?;
    world.control = MemSource::new(control, Vec::new(alloc));
    ran_in(rt, alloc, row, world)
}

fn leaves<R: Abort>(rt: &R, alloc: Global, row: &Row, ended: Option<Ended>) {
    let left = ended.map_or(Left::NotRun, |ended| left_by(alloc, row, &ended));
    assert_eq!(rt; left, Left::AsSaid, "{}", row.name);
}

#[test]
fn hostile_lines_are_refused_and_the_others_carried_out(rt: HostRuntime) {
    let rest = b"\nroll\n\x80\ngain t 18446744073709551616\n";
    let ended = ran_under(&rt, rt.alloc(), &HOSTILE_LINES, 4097, b'x', rest);
    leaves(&rt, rt.alloc(), &HOSTILE_LINES, ended);
}

#[test]
fn empty_lines_have_no_reply(rt: HostRuntime) {
    let ended = ran_under(&rt, rt.alloc(), &EMPTY_LINES, 100_000, b'\n', b"");
    leaves(&rt, rt.alloc(), &EMPTY_LINES, ended);
}

#[test]
fn a_line_that_ends_at_the_limit_is_answered(rt: HostRuntime) {
    let ended = ran_under(&rt, rt.alloc(), &ENDLESS_LINE, 16_777_216, b'x', b"");
    leaves(&rt, rt.alloc(), &ENDLESS_LINE, ended);
}

#[test]
fn empty_lines_are_read_up_to_the_limit(rt: HostRuntime) {
    let ended = ran_under(&rt, rt.alloc(), &ENDLESS_CONTROL, 16_777_216, b'\n', b"");
    leaves(&rt, rt.alloc(), &ENDLESS_CONTROL, ended);
}

#[test]
fn a_byte_less_is_not_too_long(rt: HostRuntime) {
    let ended = ran_under(&rt, rt.alloc(), &LONGEST_LINE, 16_777_215, b'x', b"");
    leaves(&rt, rt.alloc(), &LONGEST_LINE, ended);
}
