//! The text of a session in parts, and inputs of 16 bits.

/// Blocks of four frames, through rings of two boxes, and one track, which records from the first channel of the input.
pub(crate) const SESSION: &[u8] = b"[session]
version = 1
rate = 48000
bits = 16
channels = 1
block = 4
depth = 2
takes = \"take\"

[[source]]
name = \"a\"
file = \"a.wav\"
channels = 1

[[track]]
name = \"t\"
channels = 1
input = 0
arm = true

[[track.region]]
id = 1
source = \"a\"
length = 100
at = 0
";

/// Five blocks: the samples 1 to 20.
pub(crate) const TWENTY: &[u8] =
    b"\x01\0\x02\0\x03\0\x04\0\x05\0\x06\0\x07\0\x08\0\x09\0\x0a\0\x0b\0\x0c\0\x0d\0\x0e\0\x0f\0\x10\0\x11\0\x12\0\x13\0\x14\0";

/// A block and a half: the samples 1 to 6.
pub(crate) const SIX: &[u8] = b"\x01\0\x02\0\x03\0\x04\0\x05\0\x06\0";

// The header of a master of 48,000 frames a second, 16 bits and one channel: so many bytes follow the first eight, and so many of
// them are samples.
/// The header of a master of two blocks: 52 bytes and 16.
pub(crate) const HEAD_2: &[u8] =
    b"RIFF\x34\0\0\0WAVEfmt \x10\0\0\0\x01\0\x01\0\x80\xbb\0\0\0\x77\x01\0\x02\0\x10\0data\x10\0\0\0";

/// Of three blocks: 60 and 24.
pub(crate) const HEAD_3: &[u8] =
    b"RIFF\x3c\0\0\0WAVEfmt \x10\0\0\0\x01\0\x01\0\x80\xbb\0\0\0\x77\x01\0\x02\0\x10\0data\x18\0\0\0";

/// Of four blocks: 68 and 32.
pub(crate) const HEAD_4: &[u8] =
    b"RIFF\x44\0\0\0WAVEfmt \x10\0\0\0\x01\0\x01\0\x80\xbb\0\0\0\x77\x01\0\x02\0\x10\0data\x20\0\0\0";

/// A block of the master with the samples 1 to 4, 5 to 8, or none.
pub(crate) const ONE_TO_FOUR: &[u8] = b"\x01\0\x02\0\x03\0\x04\0";

pub(crate) const FIVE_TO_EIGHT: &[u8] = b"\x05\0\x06\0\x07\0\x08\0";

pub(crate) const SILENCE: &[u8] = &[0; 8];
