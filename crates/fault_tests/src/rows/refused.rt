//! Runs that aren't played, by what is wrong with their takes, their session or their input.
use run_rows::{EXPORT, ONE_TAKE, ONE_TO_EIGHT, Row};

// The base session with a block of no frames.
const NO_BLOCK: &str = r#"[session]
version = 1
rate = 48000
bits = 16
channels = 1
block = 0
depth = 2

[[source]]
name = "a"
file = "a.wav"
channels = 1

[[track]]
name = "t"
channels = 1
input = 0

[[track.region]]
id = 1
source = "a"
length = 8
at = 0
"#;

// The base session, whose track takes the second channel of the input.
const SECOND_CHANNEL: &str = r#"[session]
version = 1
rate = 48000
bits = 16
channels = 1
block = 4
depth = 2

[[source]]
name = "a"
file = "a.wav"
channels = 1

[[track]]
name = "t"
channels = 1
input = 1

[[track.region]]
id = 1
source = "a"
length = 8
at = 0
"#;

// A file of one channel, 16 bits and 44,100 frames a second, with four frames.
const SLOWER: &[u8] =
    b"RIFF\x2c\0\0\0WAVEfmt \x10\0\0\0\x01\0\x01\0\x44\xac\0\0\x88\x58\x01\0\x02\0\x10\0data\x08\0\0\0\0\0\0\0\0\0\0\0";

const ELEVEN_BYTES: &[u8] = b"RIFF\x2c\0\0\0WAV";

/// The first take is there already.
pub(crate) const TAKES_EXIST: Row = Row {
    name: "takes exist",
    there: ONE_TO_EIGHT,
    status: 14,
    replies: "",
    report: "",
    line: "error takes-exist take\n",
    stands: Some(0),
    ..ONE_TAKE
};

pub(crate) const REFUSED: &[Row] = &[
    TAKES_EXIST,
    // an export records nothing, so takes are in nobody's way
    Row {
        name: "takes beside an export",
        there: ONE_TO_EIGHT,
        takes: &[Some(ONE_TO_EIGHT), None],
        ..EXPORT
    },
    Row {
        name: "input rate differs",
        input_bytes: Some(SLOWER),
        status: 12,
        report: "",
        line: "error input rate-differs 44100 48000\n",
        stands: Some(0),
        ..EXPORT
    },
    Row {
        name: "input channels",
        session: SECOND_CHANNEL,
        input: ONE_TO_EIGHT,
        status: 12,
        report: "",
        line: "error input input-channels 1 2\n",
        stands: Some(0),
        ..EXPORT
    },
    Row {
        name: "input not riff",
        input_bytes: Some(ELEVEN_BYTES),
        status: 12,
        report: "",
        line: "error input not-riff\n",
        stands: Some(0),
        ..EXPORT
    },
    Row {
        name: "session before takes",
        session: NO_BLOCK,
        status: 2,
        line: "error session range session 1 block\n",
        takes: &[Some(ONE_TO_EIGHT), None],
        ..TAKES_EXIST
    },
    Row {
        name: "takes before input",
        input_bytes: Some(ELEVEN_BYTES),
        ..TAKES_EXIST
    },
];
