//! Files with an extensible format as sources: heard where the subformat is PCM, refused where not.
use super::{Case, Want};
use audio_source::{FileRefusal, OpenRefusal};
use wav_codec::WavRefusal;

// The five fields of two channels and 24 bits, whose tag is 0xFFFE.
const FIELDS: &[u8] = b"\xfe\xff\x02\0\x80\xbb\0\0\0\x65\x04\0\x06\0\x18\0";

// An extension of 22 bytes, 24 valid bits, mask 3.
const EXTENSION: &[u8] = b"\x16\0\x18\0\x03\0\0\0";

const PCM: &[u8] = b"\x01\0\0\0\0\0\x10\0\x80\0\0\xaa\0\x38\x9b\x71";

const FLOAT: &[u8] = b"\x03\0\0\0\0\0\x10\0\x80\0\0\xaa\0\x38\x9b\x71";

const TWO_FRAMES: &[u8] = b"data\x0c\0\0\0\0\x64\0\0\x9c\xff\0\xc8\0\0\x38\xff";

/// Files whose first source is heard or refused.
pub(super) const EXTENSIBLE: &[Case] = &[
    Case {
        parts: &[
            b"RIFF\x48\0\0\0WAVEfmt \x28\0\0\0",
            FIELDS,
            EXTENSION,
            PCM,
            TWO_FRAMES,
        ],
        files: &[("a.wav", 2)],
        rate: 48_000,
        want: Want::Heard(0, [25_600, -25_600, 51_200, -51_200, 0, 0]),
    },
    Case {
        parts: &[
            b"RIFF\x48\0\0\0WAVEfmt \x28\0\0\0",
            FIELDS,
            EXTENSION,
            FLOAT,
            TWO_FRAMES,
        ],
        files: &[("a.wav", 2)],
        rate: 48_000,
        want: Want::Refused(OpenRefusal::File {
            source: 0,
            why: FileRefusal::Wav(WavRefusal::Format(65_534)),
        }),
    },
    // the data stands after 24 bytes of the format
    Case {
        parts: &[
            b"RIFF\x38\0\0\0WAVEfmt \x18\0\0\0",
            FIELDS,
            EXTENSION,
            TWO_FRAMES,
        ],
        files: &[("a.wav", 2)],
        rate: 48_000,
        want: Want::Refused(OpenRefusal::File {
            source: 0,
            why: FileRefusal::Wav(WavRefusal::FormatShort(24)),
        }),
    },
];
