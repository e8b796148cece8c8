//! The objects in memory, with ample memory and with their faults.
use super::{Call, does_all, put};
use ses_io::{Failed, MemMedia, MemSink, MemSource, NoMemory, Sink, read_full, write_all};
use std::alloc::Global;

// Whether the second of four reads of two bytes fails, and loses nothing; what the buffer holds after each.
fn are_read(source: &mut MemSource) -> bool {
    let mut buf = [0, 0];
    let first = (read_full(source, &mut buf), buf);
    let failed = (read_full(source, &mut buf), buf);
    let second = (read_full(source, &mut buf), buf);
    let last = (read_full(source, &mut buf), buf);
    [first, failed, second, last]
        == [
            (Ok(2), [1, 2]),
            (Err(Failed), [1, 2]),
            (Ok(2), [3, 4]),
            (Ok(1), [5, 4]),
        ]
}

fn reads_are_right(alloc: Global) -> Result<bool, NoMemory> {
    let bytes = vec![in alloc; 1u8, 2, 3, 4, 5]?;
    let fails = vec![in alloc; 2u64]?;
    Ok(are_read(&mut MemSource::new(bytes, fails)))
}

// Whether the second of four writes fails, and adds nothing.
fn are_written(sink: &mut MemSink) -> bool {
    write_all(sink, b"ab") == Ok(())
        && write_all(sink, b"cd") == Err(Failed)
        && write_all(sink, b"ef") == Ok(())
        && sink.write(b"") == Ok(0)
        && sink.bytes() == b"abef".as_slice()
}

fn writes_are_right(alloc: Global) -> Result<bool, NoMemory> {
    let fails = vec![in alloc; 2u64]?;
    Ok(are_written(&mut MemSink::new(alloc, fails)))
}

#[test]
fn objects_in_memory_keep_what_they_have(rt: HostRuntime) {
    assert!(rt; reads_are_right(rt.alloc()) == Ok(true));
    assert!(rt; writes_are_right(rt.alloc()) == Ok(true));
    assert!(rt; super::lists::is_right(rt.alloc()));
}

/// What fails of a media in memory: reads or writes of a file from a place on, or the call of a number.
enum Fault {
    Reads(&'static str, u64),
    Writes(&'static str, u64),
    Call(u64),
}

/// A media whose `a.wav` holds the numbers up to 60: what fails of it, and calls.
struct Case {
    faults: &'static [Fault],
    answers: &'static [Call],
}

const CASES: &[Case] = &[
    Case {
        faults: &[],
        answers: &[
            Call::Read("a.wav", 0, 2, Ok((2, [0, 1, b'.', b'.']))),
            Call::Read("a.wav", 58, 2, Ok((2, [58, 59, b'.', b'.']))),
            Call::Read("a.wav", 59, 2, Ok((1, [59, b'.', b'.', b'.']))),
            Call::Read("a.wav", 60, 2, Ok((0, *b"...."))),
            Call::Read("a.wav", 1 << 40, 2, Ok((0, *b"...."))),
            Call::Read("b.wav", 0, 2, Ok((0, *b"...."))),
            Call::Any("", Ok(true)),
            Call::Any("a", Ok(true)),
            Call::Any("a.wav", Ok(true)),
            Call::Any("wav", Ok(false)),
            Call::Append("a.wav", &[1, 2], Ok(2)),
            Call::Size("a.wav", Ok(Some(62))),
            Call::Append("b.wav", &[1, 2], Ok(2)),
            Call::Size("b.wav", Ok(Some(2))),
            Call::Append("a.wav", &[1, 2], Ok(2)),
            Call::Size("a.wav", Ok(Some(64))),
        ],
    },
    Case {
        faults: &[Fault::Reads("a.wav", 44), Fault::Reads("", 50)],
        answers: &[
            Call::Read("a.wav", 43, 2, Ok((2, [43, 44, b'.', b'.']))),
            Call::Read("a.wav", 44, 2, Err(Failed)),
            Call::Read("b.wav", 44, 2, Ok((0, *b"...."))),
            Call::Read("b.wav", 50, 2, Err(Failed)),
        ],
    },
    Case {
        faults: &[Fault::Writes("a.wav", 62), Fault::Writes("c.wav", 0)],
        answers: &[
            Call::Append("a.wav", &[1, 2], Ok(2)),
            Call::Append("a.wav", &[1, 2], Err(Failed)),
            Call::Append("b.wav", &[1, 2], Ok(2)),
            Call::Append("c.wav", &[1, 2], Err(Failed)),
            Call::Size("c.wav", Ok(None)),
        ],
    },
    Case {
        faults: &[Fault::Call(3)],
        answers: &[
            Call::Append("a.wav", &[1, 2], Ok(2)),
            Call::Append("a.wav", &[1, 2], Ok(2)),
            Call::Append("a.wav", &[1, 2], Err(Failed)),
            Call::Append("a.wav", &[1, 2], Ok(2)),
        ],
    },
];

const SIXTY: [u8; 60] = [
    0, 1, 2, 3, 4, 5, 6, 7, 8, 9, 10, 11, 12, 13, 14, 15, 16, 17, 18, 19, 20, 21, 22, 23, 24, 25,
    26, 27, 28, 29, 30, 31, 32, 33, 34, 35, 36, 37, 38, 39, 40, 41, 42, 43, 44, 45, 46, 47, 48, 49,
    50, 51, 52, 53, 54, 55, 56, 57, 58, 59,
];

fn are_planned(media: &mut MemMedia, faults: &[Fault]) -> bool {
    for fault in faults {
        let planned = match fault {
            Fault::Reads(name, from) => media.fail_reads(name, *from),
            Fault::Writes(name, from) => media.fail_writes(name, *from),
            Fault::Call(n) => media.fail_call(*n),
        };
        if planned.is_err() {
            return false;
        }
    }
    true
}

// Whether all calls are answered as the case says.
fn is_right(alloc: Global, case: &Case) -> bool {
    let mut media = MemMedia::new(alloc);
    put(alloc, &mut media, &SIXTY)
        && are_planned(&mut media, case.faults)
        && does_all(&mut media, case.answers)
}

#[test]
fn a_media_in_memory_answers_and_fails_as_planned(rt: HostRuntime) {
    for case in CASES {
        assert!(rt; is_right(rt.alloc(), case));
    }
}
