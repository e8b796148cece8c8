//! Files that aren't opened, each for its own reason.
use super::{Case, Want};
use audio_source::{FileRefusal, OpenRefusal};
use wav_codec::WavRefusal;

// Two frames of one channel and 8 bits.
const TWO_FRAMES: &[&[u8]] = &[
    b"RIFF\x26\0\0\0WAVEfmt \x10\0\0\0\x01\0\x01\0\x80\xbb\0\0\x80\xbb\0\0\x01\0\x08\0",
    b"data\x02\0\0\0\0\x01",
];

// A mono file of 16 bits, whose `data` tells 16 bytes, behind a list chunk of 3 bytes and its pad.
const MONO: &[u8] =
    b"RIFF\x40\0\0\0WAVEfmt \x10\0\0\0\x01\0\x01\0\x80\xbb\0\0\0\x77\x01\0\x02\0\x10\0";

// The same with the tag of floats.
const FLOAT: &[u8] =
    b"RIFF\x40\0\0\0WAVEfmt \x10\0\0\0\x03\0\x01\0\x80\xbb\0\0\0\x77\x01\0\x02\0\x10\0";

const DATA: &[u8] = b"LIST\x03\0\0\0abc\0data\x10\0\0\0";

/// Files that are opened, or refused.
pub(super) const REFUSED: &[Case] = &[
    // the first source that is absent is named
    Case {
        parts: TWO_FRAMES,
        files: &[("a.wav", 1), ("b.wav", 1), ("c.wav", 1)],
        rate: 48_000,
        want: Want::Refused(OpenRefusal::File {
            source: 1,
            why: FileRefusal::Absent,
        }),
    },
    // rate comes before channels
    Case {
        parts: TWO_FRAMES,
        files: &[("a.wav", 2)],
        rate: 44_100,
        want: Want::Refused(OpenRefusal::File {
            source: 0,
            why: FileRefusal::RateDiffers {
                has: 48_000,
                want: 44_100,
            },
        }),
    },
    Case {
        parts: TWO_FRAMES,
        files: &[("a.wav", 2)],
        rate: 48_000,
        want: Want::Refused(OpenRefusal::File {
            source: 0,
            why: FileRefusal::ChannelsDiffer { has: 1, want: 2 },
        }),
    },
    Case {
        parts: TWO_FRAMES,
        files: &[("a.wav", 1)],
        rate: 48_000,
        want: Want::Opened,
    },
    // an odd list chunk is skipped
    Case {
        parts: &[MONO, DATA, &[0; 16]],
        files: &[("a.wav", 1)],
        rate: 48_000,
        want: Want::Opened,
    },
    Case {
        parts: &[MONO, DATA, &[0; 10]],
        files: &[("a.wav", 1)],
        rate: 48_000,
        want: Want::Refused(OpenRefusal::File {
            source: 0,
            why: FileRefusal::Wav(WavRefusal::Truncated { want: 16, have: 10 }),
        }),
    },
    Case {
        parts: &[FLOAT, DATA, &[0; 16]],
        files: &[("a.wav", 1)],
        rate: 48_000,
        want: Want::Refused(OpenRefusal::File {
            source: 0,
            why: FileRefusal::Wav(WavRefusal::Format(3)),
        }),
    },
];
