//! Texts of sessions in parts, and files of sounds.
use crate::bench::File;

/// Blocks of two frames.
pub(crate) const TWO: &[u8] =
    b"[session]\nversion = 1\nrate = 48000\nbits = 16\nchannels = 1\nblock = 2\ntakes = \"take\"\n";

/// Blocks of four frames.
pub(crate) const FOUR: &[u8] =
    b"[session]\nversion = 1\nrate = 48000\nbits = 16\nchannels = 1\nblock = 4\ntakes = \"take\"\n";

/// Blocks of two frames of two channels, 24 bits.
pub(crate) const WIDE: &[u8] =
    b"[session]\nversion = 1\nrate = 48000\nbits = 24\nchannels = 2\nblock = 2\ntakes = \"take\"\n";

pub(crate) const DEPTH_2: &[u8] = b"depth = 2\n";

pub(crate) const DEPTH_8: &[u8] = b"depth = 8\n";

pub(crate) const SOURCE_A: &[u8] = b"
[[source]]
name = \"a\"
file = \"a.wav\"
channels = 1
";

pub(crate) const SOURCE_B: &[u8] = b"
[[source]]
name = \"b\"
file = \"b.wav\"
channels = 1
";

pub(crate) const SOURCE_L: &[u8] = b"
[[source]]
name = \"l\"
file = \"l.wav\"
channels = 1
";

pub(crate) const SOURCE_W: &[u8] = b"
[[source]]
name = \"w\"
file = \"w.wav\"
channels = 2
";

/// A track of one channel, which records from the first channel of the input.
pub(crate) const TRACK_T: &[u8] = b"
[[track]]
name = \"t\"
channels = 1
input = 0
arm = true
";

pub(crate) const TRACK_U: &[u8] = b"
[[track]]
name = \"u\"
channels = 1
";

pub(crate) const TRACK_V: &[u8] = b"
[[track]]
name = \"v\"
channels = 1
";

/// A track of two channels.
pub(crate) const TRACK_W: &[u8] = b"
[[track]]
name = \"w\"
channels = 2
";

/// A file of the samples 1 to 6, times 256, at 48,000 frames a second.
pub(crate) const A: File = File {
    name: "a.wav",
    parts: &[
        b"RIFF\x30\0\0\0WAVEfmt \x10\0\0\0\x01\0\x01\0\x80\xbb\0\0\0\x77\x01\0\x02\0\x10\0data\x0c\0\0\0\x01\0\x02\0\x03\0\x04\0\x05\0\x06\0",
    ],
};

/// The same in 8 bits, which count from 128: the samples are times 65,536.
pub(crate) const B: File = File {
    name: "b.wav",
    parts: &[
        b"RIFF\x2a\0\0\0WAVEfmt \x10\0\0\0\x01\0\x01\0\x80\xbb\0\0\x80\xbb\0\0\x01\0\x08\0data\x06\0\0\0\x81\x82\x83\x84\x85\x86",
    ],
};

/// The samples 1 to 16, times 256.
pub(crate) const L: File = File {
    name: "l.wav",
    parts: &[
        b"RIFF\x44\0\0\0WAVEfmt \x10\0\0\0\x01\0\x01\0\x80\xbb\0\0\0\x77\x01\0\x02\0\x10\0data\x20\0\0\0",
        b"\x01\0\x02\0\x03\0\x04\0\x05\0\x06\0\x07\0\x08\0\x09\0\x0a\0\x0b\0\x0c\0\x0d\0\x0e\0\x0f\0\x10\0",
    ],
};

/// Three frames of two channels in 24 bits: 1 and -1, the greatest and the least sample, -1,000 and 70,000.
pub(crate) const W: File = File {
    name: "w.wav",
    parts: &[
        b"RIFF\x36\0\0\0WAVEfmt \x10\0\0\0\x01\0\x02\0\x80\xbb\0\0\0\x65\x04\0\x06\0\x18\0data\x12\0\0\0",
        b"\x01\0\0\xff\xff\xff\xff\xff\x7f\0\0\x80\x18\xfc\xff\x70\x11\x01",
    ],
};
