//! Heads that are read, and one that is cut. 7 bytes per second are told where nothing reads them.

use super::samples::{BASE, EIGHT, TWENTY_FOUR};
use super::{mono, read};
use std::alloc::{AllocError, Global};
use wav_codec::{WavInfo, WavRefusal};

// The second of two forms isn't judged.
const SECOND: &[u8] = b"RIFF\x3e\0\0\0WAVE\
    fmt \x10\0\0\0\x01\0\x01\0\x80\xbb\0\0\x07\0\0\0\x02\0\x10\0\
    fmt \x10\0\0\0\x03\0\x09\0\x01\0\0\0\x07\0\0\0\x01\0\x01\0data\x02\0\0\0\0\0";

// A form of 18 bytes.
const LONGER: &[u8] = b"RIFF\x28\0\0\0WAVE\
    fmt \x12\0\0\0\x01\0\x01\0\x80\xbb\0\0\x07\0\0\0\x02\0\x10\0\x05\x05data\x02\0\0\0\0\0";

// An odd chunk stands before the sound.
const LISTED: &[u8] = b"RIFF\x32\0\0\0WAVE\
    fmt \x10\0\0\0\x01\0\x01\0\x80\xbb\0\0\x07\0\0\0\x02\0\x10\0\
    LIST\x03\0\0\0abc\0data\x02\0\0\0\0\0";

/// Whether the size is told, a file, its bits, the place of the sound, and the frames.
const ROWS: &[(bool, &[u8], u16, u64, u64)] = &[
    (true, SECOND, 16, 68, 1),
    (true, LONGER, 16, 46, 1),
    (false, LONGER, 16, 46, 1),
    (true, LISTED, 16, 56, 1),
    (true, &EIGHT, 8, 44, 4),
    (true, &BASE, 16, 44, 8),
    (true, &TWENTY_FOUR, 24, 44, 3),
];

// What is read of the first bytes of `BASE`, of so many.
fn of_first(count: u64, told: bool) -> Result<WavInfo, WavRefusal> {
    match count {
        0..12 => Err(WavRefusal::NotRiff),
        20..36 => Err(WavRefusal::FormatShort(16)),
        12..44 => Err(WavRefusal::NoData),
        44..60 if told => Err(WavRefusal::Truncated {
            want: 16,
            have: count - 44,
        }),
        _ => Ok(mono(16, 44, 8)),
    }
}

// Whether `BASE` is read with 300 chunks of 1, 3 or 5 bytes, each with a pad byte, before its `fmt `: 3,600 more.
fn strays_are_skipped(alloc: Global) -> Result<bool, AllocError> {
    let mut file = Vec::from_slice(alloc, b"RIFF\x44\x0e\0\0WAVE")?;
    for _ in 0..100 {
        file.extend_from_slice(b"junk\x01\0\0\0ddjunk\x03\0\0\0ddddjunk\x05\0\0\0dddddd")?;
    }
    file.extend_from_slice(&BASE[12..])?;
    let want = Ok(mono(16, 3_644, 8));
    Ok(
        file.len() == 3_660
            && read(Some(file.len() as u64), &file) == want
            && read(None, &file) == want,
    )
}

#[test]
fn what_is_skipped_is_not_judged(rt: HostRuntime) {
    for (told, file, bits, data_at, frames) in ROWS {
        let size = if *told { Some(file.len() as u64) } else { None };
        assert!(rt; read(size, file) == Ok(mono(*bits, *data_at, *frames)));
    }
    assert!(rt; strays_are_skipped(rt.alloc()) == Ok(true));
}

#[test]
fn a_head_is_cut_at_each_byte(rt: HostRuntime) {
    for count in 0..61 {
        let file = &BASE[..count];
        let long = count as u64;
        assert!(rt; read(Some(long), file) == of_first(long, true));
        assert!(rt; read(None, file) == of_first(long, false));
    }
}
