//! The sessions of the tests, by their texts. The names of their takes begin with `take`.

/// One track `t` of one channel, 16 bits, blocks of four frames.
pub(crate) const BASE: &str = r#"[session]
version = 1
rate = 48000
bits = 16
channels = 1
block = 4
depth = 2
takes = "take"

[[track]]
name = "t"
channels = 1
input = 0
"#;

/// The same with 24 bits and blocks of three frames.
pub(crate) const DEEP: &str = r#"[session]
version = 1
rate = 48000
bits = 24
channels = 1
block = 3
depth = 2
takes = "take"

[[track]]
name = "t"
channels = 1
input = 0
"#;

/// The same with two channels.
pub(crate) const WIDE: &str = r#"[session]
version = 1
rate = 48000
bits = 24
channels = 2
block = 3
depth = 2
takes = "take"

[[track]]
name = "t"
channels = 2
input = 0
"#;

/// The base with a second track `u` of two channels.
pub(crate) const PAIR: &str = r#"[session]
version = 1
rate = 48000
bits = 16
channels = 2
block = 4
depth = 2
takes = "take"

[[track]]
name = "t"
channels = 1
input = 0

[[track]]
name = "u"
channels = 2
input = 1
"#;

/// One track of one channel, 16 bits, two blocks a second.
pub(crate) const HALVES: &str = r#"[session]
version = 1
rate = 8000
bits = 16
channels = 1
block = 4000
depth = 2
takes = "take"

[[track]]
name = "t"
channels = 1
input = 0
"#;
