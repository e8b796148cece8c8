//! Files with an extensible format: which are read, and why the others aren't.

use super::read;
use wav_codec::{WavInfo, WavRefusal, decode};

// Two frames of two channels and 24 bits; an extension of 22 bytes, 24 valid bits, mask 3, PCM.
const STEREO: [u8; 80] = *b"RIFF\x48\0\0\0WAVE\
    fmt \x28\0\0\0\xfe\xff\x02\0\x80\xbb\0\0\0\x65\x04\0\x06\0\x18\0\
    \x16\0\x18\0\x03\0\0\0\x01\0\0\0\0\0\x10\0\x80\0\0\xaa\0\x38\x9b\x71\
    data\x0c\0\0\0\0\x64\0\0\x9c\xff\0\xc8\0\0\x38\xff";

// The first byte of the subformat is 3.
const OTHER: &[u8] = b"RIFF\x48\0\0\0WAVE\
    fmt \x28\0\0\0\xfe\xff\x02\0\x80\xbb\0\0\0\x65\x04\0\x06\0\x18\0\
    \x16\0\x18\0\x03\0\0\0\x03\0\0\0\0\0\x10\0\x80\0\0\xaa\0\x38\x9b\x71\
    data\x0c\0\0\0\0\x64\0\0\x9c\xff\0\xc8\0\0\x38\xff";

// Its last byte is 0x70.
const ENDS_OTHERWISE: &[u8] = b"RIFF\x48\0\0\0WAVE\
    fmt \x28\0\0\0\xfe\xff\x02\0\x80\xbb\0\0\0\x65\x04\0\x06\0\x18\0\
    \x16\0\x18\0\x03\0\0\0\x01\0\0\0\0\0\x10\0\x80\0\0\xaa\0\x38\x9b\x70\
    data\x0c\0\0\0\0\x64\0\0\x9c\xff\0\xc8\0\0\x38\xff";

// An extension of 21 bytes.
const TWENTY_ONE: &[u8] = b"RIFF\x48\0\0\0WAVE\
    fmt \x28\0\0\0\xfe\xff\x02\0\x80\xbb\0\0\0\x65\x04\0\x06\0\x18\0\
    \x15\0\x18\0\x03\0\0\0\x01\0\0\0\0\0\x10\0\x80\0\0\xaa\0\x38\x9b\x71\
    data\x0c\0\0\0\0\x64\0\0\x9c\xff\0\xc8\0\0\x38\xff";

// A format of 24 bytes.
const SHORT: &[u8] = b"RIFF\x38\0\0\0WAVE\
    fmt \x18\0\0\0\xfe\xff\x02\0\x80\xbb\0\0\0\x65\x04\0\x06\0\x18\0\
    \x16\0\x18\0\x03\0\0\0\
    data\x0c\0\0\0\0\x64\0\0\x9c\xff\0\xc8\0\0\x38\xff";

// One of 39, with a pad byte.
const THIRTY_NINE: &[u8] = b"RIFF\x48\0\0\0WAVE\
    fmt \x27\0\0\0\xfe\xff\x02\0\x80\xbb\0\0\0\x65\x04\0\x06\0\x18\0\
    \x16\0\x18\0\x03\0\0\0\x01\0\0\0\0\0\x10\0\x80\0\0\xaa\0\x38\x9b\0\
    data\x0c\0\0\0\0\x64\0\0\x9c\xff\0\xc8\0\0\x38\xff";

// An extension of 24 bytes, in a format of 42; valid bits and mask are as large as can be.
const LONGER: &[u8] = b"RIFF\x4a\0\0\0WAVE\
    fmt \x2a\0\0\0\xfe\xff\x02\0\x80\xbb\0\0\0\x65\x04\0\x06\0\x18\0\
    \x18\0\xff\xff\xff\xff\xff\xff\x01\0\0\0\0\0\x10\0\x80\0\0\xaa\0\x38\x9b\x71\x05\x05\
    data\x0c\0\0\0\0\x64\0\0\x9c\xff\0\xc8\0\0\x38\xff";

// Nine channels.
const NINE: &[u8] = b"RIFF\x48\0\0\0WAVE\
    fmt \x28\0\0\0\xfe\xff\x09\0\x80\xbb\0\0\0\x65\x04\0\x06\0\x18\0\
    \x16\0\x18\0\x03\0\0\0\x01\0\0\0\0\0\x10\0\x80\0\0\xaa\0\x38\x9b\x71\
    data\x0c\0\0\0\0\x64\0\0\x9c\xff\0\xc8\0\0\x38\xff";

// The head of `STEREO`.
const HEAD: WavInfo = WavInfo {
    channels: 2,
    rate: 48_000,
    bits: 24,
    data_at: 68,
    frames: 2,
};

// The head of `LONGER`.
const LATER: WavInfo = WavInfo {
    channels: 2,
    rate: 48_000,
    bits: 24,
    data_at: 70,
    frames: 2,
};

/// Each file with its head or its refusal, which is the same whether or not its size is told.
const ROWS: &[(&[u8], Result<WavInfo, WavRefusal>)] = &[
    (&STEREO, Ok(HEAD)),
    (LONGER, Ok(LATER)),
    (OTHER, Err(WavRefusal::Format(65_534))),
    (ENDS_OTHERWISE, Err(WavRefusal::Format(65_534))),
    (TWENTY_ONE, Err(WavRefusal::Format(65_534))),
    (SHORT, Err(WavRefusal::FormatShort(24))),
    (THIRTY_NINE, Err(WavRefusal::FormatShort(39))),
    (NINE, Err(WavRefusal::Channels(9))),
];

// What is read of the first bytes of `STEREO`, of so many.
fn of_first(count: u64, told: bool) -> Result<WavInfo, WavRefusal> {
    match count {
        0..12 => Err(WavRefusal::NotRiff),
        20..60 => Err(WavRefusal::FormatShort(40)),
        12..68 => Err(WavRefusal::NoData),
        68..80 if told => Err(WavRefusal::Truncated {
            want: 12,
            have: count - 68,
        }),
        _ => Ok(HEAD),
    }
}

#[test]
fn extensible_files_are_read_or_refused(rt: HostRuntime) {
    for (file, want) in ROWS {
        assert!(rt; read(Some(file.len() as u64), file) == *want);
        assert!(rt; read(None, file) == *want);
    }
}

#[test]
fn an_extensible_head_is_cut_at_each_byte(rt: HostRuntime) {
    for count in 0..81 {
        let file = &STEREO[..count];
        let long = count as u64;
        assert!(rt; read(Some(long), file) == of_first(long, true));
        assert!(rt; read(None, file) == of_first(long, false));
    }
}

#[test]
fn an_extensible_file_has_the_samples_of_its_bytes(rt: HostRuntime) {
    let mut samples = [0; 4];
    decode(&HEAD, &STEREO[68..], &mut samples);
    assert!(rt; samples == [25_600, -25_600, 51_200, -51_200]);
}
