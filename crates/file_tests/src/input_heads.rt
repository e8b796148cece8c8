//! Inputs whose heads are read and judged by the base session, and what is left of each.

use crate::session_texts::edited;
use crate::wav_files::BASE;
use cycle_journal::InputRefusal;
use input_head::{NoInput, open_input};
use ses_io::{MemSource, read_full};
use session_toml::session_of;
use std::alloc::{AllocError, Global};
use wav_codec::{WavInfo, WavRefusal};

type Answer = Result<Option<WavInfo>, NoInput>;

const fn found(channels: u16, data_at: u64, frames: u64) -> Answer {
    Ok(Some(WavInfo {
        channels,
        rate: 48_000,
        bits: 16,
        data_at,
        frames,
    }))
}

// Whether this is answered for the input, of which the read of that number fails, from 1, and so many bytes are left at its
// end. The edits are those of the base session's text.
fn is_opened(
    alloc: Global,
    edits: &str,
    file: &[u8],
    fail: u64,
    answer: Answer,
    left: usize,
) -> bool {
    let Ok(text) = edited(alloc, edits) else {
        return false;
    };
    let Ok(session) = session_of(alloc, &text) else {
        return false;
    };
    let (Ok(bytes), Ok(fails)) = (Vec::from_slice(alloc, file), vec![in alloc; fail]) else {
        return false;
    };
    let mut input = MemSource::new(bytes, fails);
    let given = open_input(&mut input, &session);
    let mut rest = [0; 6_000];
    match read_full(&mut input, &mut rest) {
        Ok(n) => given == answer && n == left && file.ends_with(&rest[..n]),
        Err(_) => false,
    }
}

// `BASE` with 5,000 bytes of another chunk before its data.
fn listed(alloc: Global) -> Result<Vec<u8>, AllocError> {
    let mut file = Vec::from_slice(alloc, b"RIFF\xc4\x13\0\0WAVE")?;
    file.extend_from_slice(&BASE[12..36])?;
    file.extend_from_slice(b"LIST\x88\x13\0\0")?;
    for _ in 0..5_000 {
        file.push(7)?;
    }
    file.extend_from_slice(&BASE[36..])?;
    Ok(file)
}

// The bytes that are left after a fault of each read of it: of 12 bytes, 8, 16, 8, 4,096, 904 and 8.
const LEFT: [usize; 7] = [5_068, 5_056, 5_048, 5_032, 5_024, 928, 24];

fn long_chunk_is_skipped(alloc: Global) -> Result<bool, AllocError> {
    let file = listed(alloc)?;
    Ok(is_opened(alloc, "", &file, 0, found(1, 5_052, 8), 16))
}

fn faults_are_answered(alloc: Global) -> Result<bool, AllocError> {
    let file = listed(alloc)?;
    for (i, left) in LEFT.iter().enumerate() {
        if !is_opened(alloc, "", &file, i as u64 + 1, Err(NoInput::Fault), *left) {
            return Ok(false);
        }
    }
    Ok(true)
}

// What is answered for the first bytes of `BASE`, of so many.
fn of_first(count: usize) -> Answer {
    let refusal = match count {
        0 => return Ok(None),
        1..12 => WavRefusal::NotRiff,
        20..36 => WavRefusal::FormatShort(16),
        12..44 => WavRefusal::NoData,
        _ => return found(1, 44, 8),
    };
    Err(NoInput::Refused(InputRefusal::Wav(refusal)))
}

const OTHER_RATE: &[u8] = b"RIFF\x28\0\0\0WAVE\
    fmt \x10\0\0\0\x01\0\x01\0\x44\xac\0\0\x88\x58\x01\0\x02\0\x10\0data\x04\0\0\0\x01\0\x02\0";

const STEREO: &[u8] = b"RIFF\x28\0\0\0WAVE\
    fmt \x10\0\0\0\x01\0\x02\0\x80\xbb\0\0\0\xee\x02\0\x04\0\x10\0data\x04\0\0\0\x01\0\x02\0";

// The head says that there is no frame, and bytes stand behind it.
const NO_FRAME: &[u8] = b"RIFF\x24\0\0\0WAVE\
    fmt \x10\0\0\0\x01\0\x01\0\x80\xbb\0\0\0\x77\x01\0\x02\0\x10\0data\0\0\0\0\x01\0";

const RATE: Answer = Err(NoInput::Refused(InputRefusal::RateDiffers {
    has: 44_100,
    want: 48_000,
}));

const CHANNELS: Answer = Err(NoInput::Refused(InputRefusal::InputChannels { has: 1, want: 2 }));

const NOT_RIFF: Answer = Err(NoInput::Refused(InputRefusal::Wav(WavRefusal::NotRiff)));

#[test]
fn a_long_chunk_before_the_data_is_skipped(rt: HostRuntime) {
    assert!(rt; long_chunk_is_skipped(rt.alloc()) == Ok(true));
}

#[test]
fn each_read_fails_in_turn_and_the_data_are_left(rt: HostRuntime) {
    assert!(rt; faults_are_answered(rt.alloc()) == Ok(true));
}

#[test]
fn a_head_is_cut_at_each_byte(rt: HostRuntime) {
    for count in 0..61 {
        let left = if count < 44 { 0 } else { count - 44 };
        assert!(rt; is_opened(rt.alloc(), "", &BASE[..count], 0, of_first(count), left));
    }
}

#[test]
fn a_head_is_judged_by_the_session(rt: HostRuntime) {
    let alloc = rt.alloc();
    assert!(rt; is_opened(alloc, "", OTHER_RATE, 0, RATE, 4));
    assert!(rt; is_opened(alloc, "17:input = 1", OTHER_RATE, 0, RATE, 4));
    assert!(rt; is_opened(alloc, "17:input = 1", &BASE, 0, CHANNELS, 16));
    assert!(rt; is_opened(alloc, "17:input = 1", STEREO, 0, found(2, 44, 1), 4));
    assert!(rt; is_opened(alloc, "", STEREO, 0, found(2, 44, 1), 4));
    assert!(rt; is_opened(alloc, "", NO_FRAME, 0, found(1, 44, 0), 2));
    assert!(rt; is_opened(alloc, "", b"RIFX and more", 0, NOT_RIFF, 1));
}
