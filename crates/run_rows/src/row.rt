//! What the rows are made of, and their sessions: blocks of four frames, rings of two items, one mono track `t` with one region.
/// What fails: calls of each object by their numbers from 1, and reads and writes of a file from a place on.
#[derive(Clone, Copy)]
pub struct Fails<'a> {
    /// Reads of the input.
    pub input: &'a [u64],
    /// Reads of control.
    pub control: &'a [u64],
    /// Writes of the master.
    pub master: &'a [u64],
    /// Writes of out.
    pub out: &'a [u64],
    /// Calls of the media, of any kind.
    pub media: &'a [u64],
    /// A file, and the first byte that isn't read.
    pub reads: Option<(&'static str, u64)>,
    /// A file, and the first byte that isn't written.
    pub writes: Option<(&'static str, u64)>,
}

/// Nothing fails.
pub const NOTHING: Fails<'static> = Fails {
    input: &[],
    control: &[],
    master: &[],
    out: &[],
    media: &[],
    reads: None,
    writes: None,
};

/// A run: what it is given, and what it leaves. All samples are those of files of 16 bits.
#[derive(Clone, Copy)]
pub struct Row {
    /// What a failed test calls it.
    pub name: &'static str,
    /// The words; with none those of an export, or of a play on one thread.
    pub words: &'static [&'static str],
    /// The text of the session's file.
    pub session: &'static str,
    /// The samples of the session's source.
    pub source: &'static [u16],
    /// With none the input is empty.
    pub input: &'static [u16],
    /// The bytes of the input, where they aren't a file of those samples.
    pub input_bytes: Option<&'static [u8]>,
    /// The samples of a first take that is there before; with none there is no such file.
    pub there: &'static [u16],
    /// How many cycles are asked.
    pub cycles: u32,
    /// The position of an export, which reads no control.
    pub from: Option<u64>,
    /// Letters `c b e g p`.
    pub letters: &'static str,
    /// Control's lines.
    pub control: &'static str,
    /// What fails.
    pub fails: Fails<'static>,
    /// The number of the status.
    pub status: u8,
    /// What out gets: the replies, the report and the line of the status.
    pub replies: &'static str,
    /// The report.
    pub report: &'static str,
    /// The line of the status.
    pub line: &'static str,
    /// The samples of the master.
    pub master: &'static [u16],
    /// How many bytes of the master's file stand; None where it is whole.
    pub stands: Option<usize>,
    /// The samples of the first and of the second take.
    pub takes: &'static [Option<&'static [u16]>],
}

/// The region shows eight frames.
pub const BASE: &str = r#"[session]
version = 1
rate = 48000
bits = 16
channels = 1
block = 4
depth = 2

[[source]]
name = "a"
file = "a.wav"
channels = 1

[[track]]
name = "t"
channels = 1
input = 0

[[track.region]]
id = 1
source = "a"
length = 8
at = 0
"#;

/// Twelve of them.
pub const LONG: &str = r#"[session]
version = 1
rate = 48000
bits = 16
channels = 1
block = 4
depth = 2

[[source]]
name = "a"
file = "a.wav"
channels = 1

[[track]]
name = "t"
channels = 1
input = 0

[[track.region]]
id = 1
source = "a"
length = 12
at = 0
"#;

/// The samples of a source.
pub const EIGHT: &[u16] = &[100, 200, 300, 400, 500, 600, 700, 800];

/// The base session with this source and no input, played serially.
pub const SERIAL: Row = Row {
    name: "",
    words: &[],
    session: BASE,
    source: EIGHT,
    input: &[],
    input_bytes: None,
    there: &[],
    cycles: 2,
    from: None,
    letters: "",
    control: "",
    fails: NOTHING,
    status: 0,
    replies: "",
    report: "",
    line: "",
    master: &[],
    stands: None,
    takes: &[None, None],
};
