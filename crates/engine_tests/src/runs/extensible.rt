//! Exports whose source has an extensible format.
use super::row::{A, BASE, EXPORT, Ends, RIFF, Row};
use crate::bench::File;
use session_run::FileRefusal;
use wav_codec::WavRefusal;

// A stereo file of 24 bits with an extensible format of 40 bytes: its head up to the subformat, the subformat of PCM from its
// second byte on, and two frames.
const HEADER: &[u8] =
    b"RIFF\x48\0\0\0WAVEfmt \x28\0\0\0\xfe\xff\x02\0\x80\xbb\0\0\0\x65\x04\0\x06\0\x18\0\x16\0\x18\0\x03\0\0\0";

const SUBFORMAT: &[u8] = b"\0\0\0\0\0\x10\0\x80\0\0\xaa\0\x38\x9b\x71";

const TWO_FRAMES: &[u8] = b"data\x0c\0\0\0\0\x64\0\0\x9c\xff\0\xc8\0\0\x38\xff";

// The same format cut to 24 bytes.
const SHORT_HEADER: &[u8] =
    b"RIFF\x38\0\0\0WAVEfmt \x18\0\0\0\xfe\xff\x02\0\x80\xbb\0\0\0\x65\x04\0\x06\0\x18\0\x16\0\x18\0\x03\0\0\0";

pub(crate) const EXTENSIBLE: &[Row] = &[
    // an extensible source of another subformat
    Row {
        words: EXPORT,
        files: &[
            BASE,
            File {
                name: "a.wav",
                parts: &[HEADER, &[3], SUBFORMAT, TWO_FRAMES],
            },
        ],
        bad_reads: &[],
        bad_writes: &[],
        ends: Ends::Source(FileRefusal::Wav(WavRefusal::Format(65_534))),
        number: 3,
        report: None,
        out: b"error source a format 65534\n",
        master: &[],
        states: &[],
        notes: &[],
    },
    // an extensible source whose format has 24 bytes
    Row {
        words: EXPORT,
        files: &[
            BASE,
            File {
                name: "a.wav",
                parts: &[SHORT_HEADER, TWO_FRAMES],
            },
        ],
        bad_reads: &[],
        bad_writes: &[],
        ends: Ends::Source(FileRefusal::Wav(WavRefusal::FormatShort(24))),
        number: 3,
        report: None,
        out: b"error source a format-short 24\n",
        master: &[],
        states: &[],
        notes: &[],
    },
    // an extensible source that is read, and is stereo
    Row {
        words: EXPORT,
        files: &[
            BASE,
            File {
                name: "a.wav",
                parts: &[HEADER, &[1], SUBFORMAT, TWO_FRAMES],
            },
        ],
        bad_reads: &[],
        bad_writes: &[],
        ends: Ends::Source(FileRefusal::ChannelsDiffer { has: 2, want: 1 }),
        number: 3,
        report: None,
        out: b"error source a channels-differ 2 1\n",
        master: &[],
        states: &[],
        notes: &[],
    },
];
