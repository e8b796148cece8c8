//! The keys of a session's text.

/// A key of a session's text, or a part's name. One word is one key, wherever it stands.
#[derive(Clone, Copy, Debug, PartialEq, Eq)]
pub enum Key {
    /// `session`
    Session,
    /// `version`
    Version,
    /// `rate`
    Rate,
    /// `bits`
    Bits,
    /// `channels`
    Channels,
    /// `block`
    Block,
    /// `depth`
    Depth,
    /// `takes`
    Takes,
    /// `source`, the array and a region's source.
    Source,
    /// `name`
    Name,
    /// `file`
    File,
    /// `track`
    Track,
    /// `input`
    Input,
    /// `solo`
    Solo,
    /// `arm`
    Arm,
    /// `out`
    Out,
    /// `gain`
    Gain,
    /// `mute`
    Mute,
    /// `left`
    Left,
    /// `right`
    Right,
    /// `mode`
    Mode,
    /// `lane`
    Lane,
    /// `send`
    Send,
    /// `to`
    To,
    /// `pre`
    Pre,
    /// `region`
    Region,
    /// `id`
    Id,
    /// `start`
    Start,
    /// `length`
    Length,
    /// `at`
    At,
    /// `layer`
    Layer,
    /// `opaque`
    Opaque,
    /// `fade_in`
    FadeIn,
    /// `fade_out`
    FadeOut,
    /// `shape_in`, a key of version 2.
    ShapeIn,
    /// `shape_out`, a key of version 2.
    ShapeOut,
    /// `bus`
    Bus,
    /// `master`
    Master,
}
