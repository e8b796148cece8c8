//! Each read of control, and each write of a reply, fails once: what was answered before stands, and nothing is after it.
use crate::leading::{Left, Row, Script, led};
use crate::rows::ROWS;
use ses_io::{MemSink, MemSource, NoMemory};
use std::alloc::Global;
use std::sync::Wait;

// More calls than any row makes.
const CALLS: u64 = 12;

// The script of a row, of which this read or this write fails; 0 is none.
fn failing(alloc: Global, row: &Row, read: u64, write: u64) -> Result<Script, NoMemory> {
    let mut reads = Vec::new(alloc);
    reads.push(read)?;
    let mut writes = Vec::new(alloc);
    writes.push(write)?;
    Ok(Script {
        source: MemSource::new(row.control.to_vec(alloc)?, reads),
        out: MemSink::new(alloc, writes),
    })
}

// Whether the replies are those of the row, as far as they go, and one of both failed, or none where they are whole.
fn stands(left: &Left, row: &Row) -> bool {
    let replies = left.out.bytes();
    let whole = replies == row.replies.as_bytes();
    let failed = left.read_failed || left.write_failed;
    row.replies.as_bytes().starts_with(replies)
        && !(left.read_failed && left.write_failed)
        && (failed || whole)
        && left.edits <= row.edits
}

// Whether it stands at this failure.
fn stands_at<R: Wait>(rt: &R, alloc: Global, row: &Row, read: u64, write: u64) -> bool {
    let Ok(script) = failing(alloc, row, read, write) else {
        return false;
    };
    match led(rt, alloc, script, row) {
        Some(left) => stands(&left, row),
        None => false,
    }
}

#[test]
fn a_failure_at_each_call_leaves_a_front(rt: HostRuntime) {
    for row in ROWS {
        for call in 1..CALLS {
            assert!(rt; stands_at(&rt, rt.alloc(), row, call, 0));
            assert!(rt; stands_at(&rt, rt.alloc(), row, 0, call));
        }
    }
}
