//! The samples of 8, 16 and 24 bits in one channel and in two, by RIFF WAVE: 8 bits count from 128, the others are signed.
//! Of 48,000 frames a second; a stray chunk of 3 bytes and its pad stand before the form, and a chunk behind the sound, which
//! begins at byte 56.
use super::{Case, Want};

pub(super) const STRAY: &[u8] = b"WAVEJUNK\x03\0\0\0\x01\x02\x03\0fmt \x10\0\0\0\x01\0";

pub(super) const LIST: &[u8] = b"LIST\x02\0\0\0\x07\x07";

const PAD_AND_LIST: &[u8] = b"\0LIST\x02\0\0\0\x07\x07";

pub(super) const MONO_8: &[u8] = b"\x01\0\x80\xbb\0\0\0\0\0\0\x01\0\x08\0";

const STEREO_8: &[u8] = b"\x02\0\x80\xbb\0\0\0\0\0\0\x02\0\x08\0";

pub(super) const MONO_16: &[u8] = b"\x01\0\x80\xbb\0\0\0\0\0\0\x02\0\x10\0";

const STEREO_16: &[u8] = b"\x02\0\x80\xbb\0\0\0\0\0\0\x04\0\x10\0";

const MONO_24: &[u8] = b"\x01\0\x80\xbb\0\0\0\0\0\0\x03\0\x18\0";

const STEREO_24: &[u8] = b"\x02\0\x80\xbb\0\0\0\0\0\0\x06\0\x18\0";

const ENDS: &[u8] = &[
    1, 0, 0, 0xff, 0xff, 0xff, 0, 0, 0x80, 0xff, 0xff, 0x7f, 9, 9,
];

const STEPS: &[u8] = &[128, 129, 130, 131, 132, 133, 134, 135];

/// Files whose first source is heard.
pub(super) const HEARD: &[Case] = &[
    // eight bits count from the middle
    Case {
        parts: &[
            b"RIFF\x3e\0\0\0",
            STRAY,
            MONO_8,
            b"data\x03\0\0\0",
            &[0, 128, 255],
            PAD_AND_LIST,
        ],
        files: &[("a.wav", 1)],
        rate: 48_000,
        want: Want::Heard(0, [-8_388_608, 0, 8_323_072, 0, 0, 0]),
    },
    // the last frame has one byte of two
    Case {
        parts: &[
            b"RIFF\x40\0\0\0",
            STRAY,
            STEREO_8,
            b"data\x05\0\0\0",
            &[129, 127, 128, 130, 5],
            PAD_AND_LIST,
        ],
        files: &[("a.wav", 2)],
        rate: 48_000,
        want: Want::Heard(0, [65_536, -65_536, 0, 131_072, 0, 0]),
    },
    // sixteen bits are signed
    Case {
        parts: &[
            b"RIFF\x40\0\0\0",
            STRAY,
            MONO_16,
            b"data\x05\0\0\0",
            &[100, 0, 0x9c, 0xff, 1],
            PAD_AND_LIST,
        ],
        files: &[("a.wav", 1)],
        rate: 48_000,
        want: Want::Heard(0, [25_600, -25_600, 0, 0, 0, 0]),
    },
    Case {
        parts: &[
            b"RIFF\x46\0\0\0",
            STRAY,
            STEREO_16,
            b"data\x0b\0\0\0",
            &[1, 0, 0xff, 0xff, 0xff, 0x7f, 0, 0x80, 9, 9, 9],
            PAD_AND_LIST,
        ],
        files: &[("a.wav", 2)],
        rate: 48_000,
        want: Want::Heard(0, [256, -256, 8_388_352, -8_388_608, 0, 0]),
    },
    // twenty-four bits are signed
    Case {
        parts: &[
            b"RIFF\x48\0\0\0",
            STRAY,
            MONO_24,
            b"data\x0e\0\0\0",
            ENDS,
            LIST,
        ],
        files: &[("a.wav", 1)],
        rate: 48_000,
        want: Want::Heard(0, [1, -1, -8_388_608, 8_388_607, 0, 0]),
    },
    Case {
        parts: &[
            b"RIFF\x48\0\0\0",
            STRAY,
            STEREO_24,
            b"data\x0e\0\0\0",
            ENDS,
            LIST,
        ],
        files: &[("a.wav", 2)],
        rate: 48_000,
        want: Want::Heard(0, [1, -1, -8_388_608, 8_388_607, 0, 0]),
    },
    // frames begin where they are asked for
    Case {
        parts: &[
            b"RIFF\x42\0\0\0",
            STRAY,
            MONO_8,
            b"data\x08\0\0\0",
            STEPS,
            LIST,
        ],
        files: &[("a.wav", 1)],
        rate: 48_000,
        want: Want::Heard(5, [327_680, 393_216, 458_752, 0, 0, 0]),
    },
    Case {
        parts: &[
            b"RIFF\x42\0\0\0",
            STRAY,
            STEREO_8,
            b"data\x08\0\0\0",
            STEPS,
            LIST,
        ],
        files: &[("a.wav", 2)],
        rate: 48_000,
        want: Want::Heard(2, [262_144, 327_680, 393_216, 458_752, 0, 0]),
    },
    Case {
        parts: &[
            b"RIFF\x42\0\0\0",
            STRAY,
            MONO_8,
            b"data\x08\0\0\0",
            STEPS,
            LIST,
        ],
        files: &[("a.wav", 1)],
        rate: 48_000,
        want: Want::Heard(8, [0; 6]),
    },
    Case {
        parts: &[
            b"RIFF\x42\0\0\0",
            STRAY,
            MONO_8,
            b"data\x08\0\0\0",
            STEPS,
            LIST,
        ],
        files: &[("a.wav", 1)],
        rate: 48_000,
        want: Want::Heard(u64::MAX, [0; 6]),
    },
];
