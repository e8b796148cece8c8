//! What the rows of runs are made of.
use crate::bench::File;
use cycle_journal::{Note, Play, State, Take};
use session_run::FileRefusal;

#[derive(Clone, Copy)]
pub(crate) enum Ends {
    Done,
    Usage,
    /// The session is absent.
    Absent,
    /// Its block is out of range.
    BlockRange,
    /// Its first region has a key that isn't known.
    UnknownInRegion,
    /// The file of source a is refused.
    Source(FileRefusal),
    ReadFault,
    MasterFault,
    OutFault,
}

/// The numbers of the report of an export at 48,000 frames a second.
#[derive(Clone, Copy)]
pub(crate) struct Form {
    pub(crate) from: u64,
    pub(crate) bits: u16,
    pub(crate) channels: u16,
    pub(crate) block: u32,
    /// How many were asked for.
    pub(crate) cycles: u32,
}

/// What a run is given, and what it leaves: its status with its number, its out and its master, and the states of its cycles,
/// each with these notes.
#[derive(Clone, Copy)]
pub(crate) struct Row {
    pub(crate) words: &'static [&'static str],
    pub(crate) files: &'static [File],
    pub(crate) bad_reads: &'static [(&'static str, u64)],
    pub(crate) bad_writes: &'static [u64],
    pub(crate) ends: Ends,
    pub(crate) number: u8,
    /// The report that out gets of these cycles, each of which rolled and heard each track.
    pub(crate) report: Option<Form>,
    /// What out gets besides, behind it.
    pub(crate) out: &'static [u8],
    pub(crate) master: &'static [&'static [u8]],
    pub(crate) states: &'static [State],
    pub(crate) notes: &'static [Note],
}

/// A track that was heard as it was opened.
pub(crate) const HEARD: Note = Note {
    play: Play::Heard(0),
    take: Take::Off,
};

pub(crate) const FIRST: State = State::Rolling {
    generation: 1,
    seq: 0,
};

pub(crate) const ROLLS: &[State] = &[
    FIRST,
    State::Rolling {
        generation: 1,
        seq: 1,
    },
];

pub(crate) const EXPORT: &[&str] = &["export", "s.toml", "0", "2"];

/// Of that export of the base session.
pub(crate) const TWO_CYCLES: Form = Form {
    from: 0,
    bits: 16,
    channels: 1,
    block: 4,
    cycles: 2,
};

/// It is played to its end, and its one track is heard.
pub(crate) const EXPORTED: Row = Row {
    words: EXPORT,
    files: &[],
    bad_reads: &[],
    bad_writes: &[],
    ends: Ends::Done,
    number: 0,
    report: Some(TWO_CYCLES),
    out: b"",
    master: &[],
    states: ROLLS,
    notes: &[HEARD],
};

pub(crate) const HEAD: &[u8] = b"[session]\nversion = 1\nrate = 48000\nchannels = 1\ndepth = 2\n";

pub(crate) const FORM: &[u8] = b"block = 4\nbits = 16\n";

pub(crate) const PARTS: &[u8] =
    b"[[source]]\nname = \"a\"\nfile = \"a.wav\"\nchannels = 1\n\n[[track]]\nname = \"t\"\nchannels = 1\ninput = 0\n";

pub(crate) const REGION: &[u8] = b"[[track.region]]\nid = 1\nsource = \"a\"\nlength = 8\nat = 0\n";

pub(crate) const BASE: File = File {
    name: "s.toml",
    parts: &[HEAD, FORM, PARTS, REGION],
};

// A mono file of 16 bits and 48,000 frames a second with eight frames 100 to 800: 60 bytes, written by hand after RIFF
// WAVE.
pub(crate) const RIFF: &[u8] = b"RIFF\x34\0\0\0WAVEfmt \x10\0\0\0";

pub(crate) const FORMAT: &[u8] = &[1, 0, 1, 0, 0x80, 0xbb, 0, 0, 0, 0x77, 1, 0, 2, 0, 16, 0];

pub(crate) const DATA: &[u8] = b"data\x10\0\0\0";

pub(crate) const SOUND: &[u8] = &[
    0x64, 0, 0xc8, 0, 0x2c, 1, 0x90, 1, 0xf4, 1, 0x58, 2, 0xbc, 2, 0x20, 3,
];

pub(crate) const SOURCE: &[&[u8]] = &[RIFF, FORMAT, DATA, SOUND];

pub(crate) const A: File = File {
    name: "a.wav",
    parts: SOURCE,
};

pub(crate) const EIGHT_OF_400: &[u8] = &[
    0x90, 1, 0x90, 1, 0x90, 1, 0x90, 1, 0x90, 1, 0x90, 1, 0x90, 1, 0x90, 1,
];

/// Eight frames of 400.
pub(crate) const EVEN: File = File {
    name: "a.wav",
    parts: &[RIFF, FORMAT, DATA, EIGHT_OF_400],
};

/// A second source.
pub(crate) const SOURCE_B: &[u8] = b"[[source]]\nname = \"b\"\nfile = \"b.wav\"\nchannels = 1\n";
