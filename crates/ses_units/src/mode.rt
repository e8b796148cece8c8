//! Whether a route's fader or its lane is heard.

/// What a route takes its gain from (own).
#[derive(Clone, Copy, Debug, PartialEq, Eq)]
pub enum Mode {
    /// The fader is heard.
    Manual,
    /// The lane is heard, or the fader where the lane has no point.
    Play,
}
