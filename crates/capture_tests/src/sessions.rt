//! Texts of sessions in parts, and files of sounds.
use crate::bench::File;

/// Blocks of two frames.
pub(crate) const TWO: &[u8] =
    b"[session]\nversion = 1\nrate = 48000\nbits = 16\nchannels = 1\nblock = 2\ntakes = \"take\"\n";

pub(crate) const DEPTH_2: &[u8] = b"depth = 2\n";

pub(crate) const DEPTH_8: &[u8] = b"depth = 8\n";

pub(crate) const SOURCE_L: &[u8] = b"
[[source]]
name = \"l\"
file = \"l.wav\"
channels = 1
";

/// A track of one channel, which records from the first channel of the input.
pub(crate) const TRACK_T: &[u8] = b"
[[track]]
name = \"t\"
channels = 1
input = 0
arm = true
";

/// The samples 1 to 16, times 256.
pub(crate) const L: File = File {
    name: "l.wav",
    parts: &[
        b"RIFF\x44\0\0\0WAVEfmt \x10\0\0\0\x01\0\x01\0\x80\xbb\0\0\0\x77\x01\0\x02\0\x10\0data\x20\0\0\0",
        b"\x01\0\x02\0\x03\0\x04\0\x05\0\x06\0\x07\0\x08\0\x09\0\x0a\0\x0b\0\x0c\0\x0d\0\x0e\0\x0f\0\x10\0",
    ],
};
