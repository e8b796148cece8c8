//! The refusals, each with a file that has one thing wrong. 7 bytes per second are told throughout.

use super::read;
use wav_codec::WavRefusal;

/// Each file with its refusal.
const ROWS: &[(&[u8], WavRefusal)] = &[
    (b"", WavRefusal::NotRiff),
    // Eleven bytes.
    (b"RIFF\x04\0\0\0WAV", WavRefusal::NotRiff),
    (b"RIFX\x04\0\0\0WAVE", WavRefusal::NotRiff),
    (b"RIFF\x04\0\0\0AVI ", WavRefusal::NotWave),
    // The next place is 12 + 8 + 16,777,197 and a pad byte.
    (
        b"RIFF\x0c\0\0\0WAVEjunk\xed\xff\xff\0",
        WavRefusal::HeadTooLong(16_777_218),
    ),
    // The last place is looked at, and no chunk stands there.
    (b"RIFF\x0c\0\0\0WAVEjunk\xec\xff\xff\0", WavRefusal::NoData),
    // No chunk at all.
    (b"RIFF\x04\0\0\0WAVE", WavRefusal::NoData),
    // The second field tells no chunk.
    (
        b"RIFF\0\0\0\0WAVE\
        fmt \x10\0\0\0\x01\0\x01\0\x80\xbb\0\0\x07\0\0\0\x02\0\x10\0data\x02\0\0\0\0\0",
        WavRefusal::NoData,
    ),
    // No `data`.
    (
        b"RIFF&\0\0\0WAVE\
        fmt \x10\0\0\0\x01\0\x01\0\x80\xbb\0\0\x07\0\0\0\x02\0\x10\0dat_\x02\0\0\0\0\0",
        WavRefusal::NoData,
    ),
    // `data` first.
    (
        b"RIFF&\0\0\0WAVE\
        data\x02\0\0\0\0\0fmt \x10\0\0\0\x01\0\x01\0\x80\xbb\0\0\x07\0\0\0\x02\0\x10\0",
        WavRefusal::NoFormat,
    ),
    (
        b"RIFF&\0\0\0WAVE\
        fmt \x0f\0\0\0\x01\0\x01\0\x80\xbb\0\0\x07\0\0\0\x02\0\x10\0data\x02\0\0\0\0\0",
        WavRefusal::FormatShort(15),
    ),
    // One byte of 18 isn't there; the tag is wrong too.
    (
        b"RIFF\x1d\0\0\0WAVE\
        fmt \x12\0\0\0\x03\0\x01\0\x80\xbb\0\0\x07\0\0\0\x02\0\x10\0\x05",
        WavRefusal::FormatShort(18),
    ),
    // Each with all that comes later wrong too. The tag of an extensible format wants 40 bytes.
    (
        b"RIFF&\0\0\0WAVE\
        fmt \x10\0\0\0\xfe\xff\x09\0\x01\0\0\0\x07\0\0\0\x01\0\x0c\0data\x02\0\0\0\0\0",
        WavRefusal::FormatShort(16),
    ),
    (
        b"RIFF&\0\0\0WAVE\
        fmt \x10\0\0\0\x03\0\x09\0\x01\0\0\0\x07\0\0\0\x01\0\x0c\0data\x02\0\0\0\0\0",
        WavRefusal::Format(3),
    ),
    (
        b"RIFF&\0\0\0WAVE\
        fmt \x10\0\0\0\x01\0\0\0\x01\0\0\0\x07\0\0\0\x01\0\x0c\0data\x02\0\0\0\0\0",
        WavRefusal::Channels(0),
    ),
    (
        b"RIFF&\0\0\0WAVE\
        fmt \x10\0\0\0\x01\0\x09\0\x01\0\0\0\x07\0\0\0\x01\0\x0c\0data\x02\0\0\0\0\0",
        WavRefusal::Channels(9),
    ),
    (
        b"RIFF&\0\0\0WAVE\
        fmt \x10\0\0\0\x01\0\x01\0\x01\0\0\0\x07\0\0\0\x01\0\x0c\0data\x02\0\0\0\0\0",
        WavRefusal::Bits(12),
    ),
    (
        b"RIFF&\0\0\0WAVE\
        fmt \x10\0\0\0\x01\0\x01\0?\x1f\0\0\x07\0\0\0\x01\0\x10\0data\x02\0\0\0\0\0",
        WavRefusal::Rate(7_999),
    ),
    (
        b"RIFF&\0\0\0WAVE\
        fmt \x10\0\0\0\x01\0\x01\0\x01\xee\x02\0\x07\0\0\0\x01\0\x10\0data\x02\0\0\0\0\0",
        WavRefusal::Rate(192_001),
    ),
    (
        b"RIFF&\0\0\0WAVE\
        fmt \x10\0\0\0\x01\0\x01\0\x80\xbb\0\0\x07\0\0\0\x03\0\x10\0data\x10\0\0\0\0\0",
        WavRefusal::Align(3),
    ),
    // 16 bytes told, 10 there.
    (
        b"RIFF.\0\0\0WAVE\
        fmt \x10\0\0\0\x01\0\x01\0\x80\xbb\0\0\x07\0\0\0\x02\0\x10\0data\x10\0\0\0\0\0\0\0\0\0\0\0\0\0",
        WavRefusal::Truncated { want: 16, have: 10 },
    ),
];

#[test]
fn each_refusal_has_its_file(rt: HostRuntime) {
    for (file, refusal) in ROWS {
        assert!(rt; read(Some(file.len() as u64), file) == Err(*refusal));
    }
}
