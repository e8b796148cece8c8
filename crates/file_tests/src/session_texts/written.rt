//! Texts that are written of sessions: worked out by hand, and read again. Python's `tomllib` reads the same values of them.
use super::edited;
use super::read::{FULL, Form, is_read};
use session_text::text_of_session;
use session_toml::session_of;
use std::alloc::Global;

const BASE_TEXT: &str = r#"bus = []

[master]
gain = 65536
lane = []
mode = "manual"
mute = false

[session]
bits = 16
block = 4
channels = 1
depth = 2
rate = 48000
takes = "take"
version = 2

[[source]]
channels = 1
file = "a.wav"
name = "a"

[[track]]
arm = false
channels = 1
gain = 65536
input = 0
lane = []
left = 65536
mode = "manual"
mute = false
name = "t"
out = "master"
right = 65536
send = []
solo = false

[[track.region]]
at = 0
fade_in = 0
fade_out = 0
gain = 65536
id = 1
layer = 0
length = 8
opaque = true
shape_in = "linear"
shape_out = "linear"
source = "a"
start = 0
"#;

// The edits that leave the session's own part alone.
const BARE: &str = "9:\n10:\n11:\n12:\n14:\n15:\n16:\n17:\n19:\n20:\n21:\n22:\n23:";

const BARE_TEXT: &str = r#"bus = []
source = []
track = []

[master]
gain = 65536
lane = []
mode = "manual"
mute = false

[session]
bits = 16
block = 4
channels = 1
depth = 2
rate = 48000
takes = "take"
version = 2
"#;

const FULL_TEXT: &str = r#"[[bus]]
channels = 2
gain = 65536
lane = []
left = 65536
mode = "manual"
mute = false
name = "b"
out = "c"
right = 65536
send = []

[[bus]]
channels = 2
gain = 65536
lane = []
left = 65536
mode = "manual"
mute = true
name = "c"
out = "master"
right = 65536
send = []

[master]
gain = 20
lane = [[0, 21]]
mode = "play"
mute = true

[session]
bits = 24
block = 4
channels = 2
depth = 2
rate = 48000
takes = "day_1"
version = 2

[[source]]
channels = 2
file = "a.wav"
name = "a"

[[track]]
arm = true
channels = 2
gain = 1
input = 6
lane = [[5, 6], [7, 8]]
left = 2
mode = "play"
mute = true
name = "t"
out = "b"
right = 3
solo = true

[[track.region]]
at = 10
fade_in = 3
fade_out = 5
gain = 13
id = 1
layer = 12
length = 8
opaque = false
shape_in = "slow"
shape_out = "linear"
source = "a"
start = 11

[[track.send]]
gain = 9
pre = true
to = "master"

[[track.send]]
gain = 65536
pre = false
to = "c"
"#;

// The text that is written of the session of a text, if one is.
fn written(alloc: Global, bytes: &[u8]) -> Option<Vec<u8>> {
    match session_of(alloc, bytes) {
        Ok(session) => text_of_session(alloc, &session).ok(),
        Err(_) => None,
    }
}

// Whether this is the text of the session of a text.
fn is_written(alloc: Global, bytes: &[u8], words: &str) -> bool {
    match written(alloc, bytes) {
        Some(text) => text.as_slice() == words.as_bytes(),
        None => false,
    }
}

// Whether these are the words for the base text with these edits, and for themselves; they are read as that form.
fn is_right(alloc: Global, edits: &str, form: &Form, words: &str) -> bool {
    match edited(alloc, edits) {
        Ok(text) => is_written(alloc, &text, words)
            && is_written(alloc, words.as_bytes(), words)
            && is_read(alloc, words.as_bytes(), form),
        Err(_) => false,
    }
}

// The edits of the base text that a session is read of, its form, and its text.
const WRITTEN: &[(&str, Form, &str)] = &[
    ("", Form::Base, BASE_TEXT),
    (BARE, Form::Bare, BARE_TEXT),
    (FULL, Form::Full, FULL_TEXT),
];

#[test]
fn each_key_is_written(rt: HostRuntime) {
    for (edits, form, words) in WRITTEN {
        assert!(rt; is_right(rt.alloc(), edits, form, words));
    }
}
