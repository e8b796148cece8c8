//! Why a WAV file isn't read.

/// Why a WAV file isn't read: the first thing wrong on the walk over its chunks.
#[derive(Clone, Copy, PartialEq, Eq)]
pub enum WavRefusal {
    /// There are fewer than 12 bytes, or they don't begin with `RIFF`.
    NotRiff,
    /// Bytes 8 to 11 aren't `WAVE`.
    NotWave,
    /// The next chunk would stand at this place, which is past 16,777,216.
    HeadTooLong(u64),
    /// No further chunk stands, and none was `data`.
    NoData,
    /// `data` stands before any `fmt `.
    NoFormat,
    /// `fmt ` has this many bytes: fewer than 16, or fewer than 40 with the tag 0xFFFE, or the file
    /// ends within them.
    FormatShort(u32),
    /// The tag is neither 1, which is PCM, nor 0xFFFE; or it is 0xFFFE, and the extension has
    /// fewer than 22 bytes or a subformat that isn't PCM's.
    Format(u16),
    /// The channels aren't 1 to 8.
    Channels(u16),
    /// The bits of a sample are neither 8 nor 16 nor 24.
    Bits(u16),
    /// The frames per second aren't 8,000 to 192,000.
    Rate(u32),
    /// The bytes of a frame aren't the channels times the bytes of a sample.
    Align(u16),
    /// `data` tells `want` bytes, and the file of told size has `have` of them.
    Truncated { want: u64, have: u64 },
}
