//! A point of a lane: the gain that a line of gains passes through at a place.
use crate::gain::Gain;

/// A gain at a place of the timeline.
#[derive(Clone, Copy, Debug, PartialEq, Eq)]
pub struct Point {
    /// The place, in frames.
    pub at: u64,
    /// The gain there.
    pub gain: Gain,
}
