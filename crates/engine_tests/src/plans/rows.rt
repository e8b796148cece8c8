//! Sessions, with what they open to.
use crate::bench::File;
use audio_source::FileRefusal;
use wav_codec::WavRefusal;

pub(crate) enum Answer {
    Opens,
    /// The session is absent.
    Absent,
    /// Its block is out of range.
    BlockRange,
    /// The file of source a is refused.
    Source(FileRefusal),
    ReadFault,
}

/// Files whose session is opened from this position on.
pub(crate) struct Row {
    pub(crate) from: &'static str,
    /// What that word means.
    pub(crate) position: u64,
    pub(crate) files: &'static [File],
    pub(crate) bad_reads: &'static [(&'static str, u64)],
    pub(crate) answer: Answer,
}

const HEAD: &[u8] = b"[session]\nversion = 1\nrate = 48000\nchannels = 1\ndepth = 2\n";

const FORM: &[u8] = b"block = 4\nbits = 16\n";

const TRACK: &[u8] =
    b"[[source]]\nname = \"a\"\nfile = \"a.wav\"\nchannels = 1\n\n[[track]]\nname = \"t\"\nchannels = 1\n";

const REGION: &[u8] = b"[[track.region]]\nid = 1\nsource = \"a\"\nlength = 8\nat = 0\n";

const BASE: File = File {
    name: "s.toml",
    parts: &[HEAD, FORM, TRACK, REGION],
};

// A mono file of 16 bits whose `data` tells 16 bytes, behind a list chunk of 3 bytes and its pad.
const RIFF: &[u8] = b"RIFF\x40\0\0\0WAVEfmt \x10\0\0\0";

const FORMAT: &[u8] = &[1, 0, 1, 0, 0x80, 0xbb, 0, 0, 0, 0x77, 1, 0, 2, 0, 16, 0];

const FLOATS: &[u8] = &[3, 0, 1, 0, 0x80, 0xbb, 0, 0, 0, 0x77, 1, 0, 2, 0, 16, 0];

const DATA: &[u8] = b"LIST\x03\0\0\0abc\0data\x10\0\0\0";

const A: File = File {
    name: "a.wav",
    parts: &[RIFF, FORMAT, DATA, &[0; 16]],
};

pub(crate) const ROWS: &[Row] = &[
    // the base session
    Row {
        from: "6",
        position: 6,
        files: &[BASE, A],
        bad_reads: &[],
        answer: Answer::Opens,
    },
    // a session that writes each default
    Row {
        from: "0",
        position: 0,
        files: &[
            File {
                name: "s.toml",
                parts: &[
                    HEAD,
                    b"block = 4\nbits = 16\ntakes = \"take\"\n",
                    TRACK,
                    b"solo = false\narm = false\nout = \"master\"\ngain = 65536\nmute = false\nleft = 65536\nright = 65536\nmode = \"manual\"\nlane = []\n",
                    REGION,
                    b"start = 0\nlayer = 0\ngain = 65536\nopaque = true\nfade_in = 0\nfade_out = 0\n",
                ],
            },
            A,
        ],
        bad_reads: &[],
        answer: Answer::Opens,
    },
    // an absent session
    Row {
        from: "0",
        position: 0,
        files: &[],
        bad_reads: &[],
        answer: Answer::Absent,
    },
    // a block of no frames
    Row {
        from: "0",
        position: 0,
        files: &[
            File {
                name: "s.toml",
                parts: &[HEAD, b"block = 0\nbits = 16\n", TRACK, REGION],
            },
            A,
        ],
        bad_reads: &[],
        answer: Answer::BlockRange,
    },
    // a track with a gain
    Row {
        from: "0",
        position: 0,
        files: &[
            File {
                name: "s.toml",
                parts: &[HEAD, FORM, TRACK, b"gain = 1\n", REGION],
            },
            A,
        ],
        bad_reads: &[],
        answer: Answer::Opens,
    },
    // 24 bits, and an absent source
    Row {
        from: "0",
        position: 0,
        files: &[File {
            name: "s.toml",
            parts: &[HEAD, b"block = 4\nbits = 24\n", TRACK, REGION],
        }],
        bad_reads: &[],
        answer: Answer::Source(FileRefusal::Absent),
    },
    // an absent source
    Row {
        from: "0",
        position: 0,
        files: &[BASE],
        bad_reads: &[],
        answer: Answer::Source(FileRefusal::Absent),
    },
    // a source of floats
    Row {
        from: "0",
        position: 0,
        files: &[
            BASE,
            File {
                name: "a.wav",
                parts: &[RIFF, FLOATS, DATA, &[0; 16]],
            },
        ],
        bad_reads: &[],
        answer: Answer::Source(FileRefusal::Wav(WavRefusal::Format(3))),
    },
    // a source that ends too early
    Row {
        from: "0",
        position: 0,
        files: &[
            BASE,
            File {
                name: "a.wav",
                parts: &[RIFF, FORMAT, DATA, &[0; 10]],
            },
        ],
        bad_reads: &[],
        answer: Answer::Source(FileRefusal::Wav(WavRefusal::Truncated { want: 16, have: 10 })),
    },
    // a read that fails
    Row {
        from: "0",
        position: 0,
        files: &[BASE],
        bad_reads: &[("s.toml", 0)],
        answer: Answer::ReadFault,
    },
];
