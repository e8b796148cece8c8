//! A region: a part of a source, placed on a track's timeline (Ardour's manual).
use ses_units::{Gain, Shape};

/// A part of a source that is heard at a place of a track. Lengths and places are in frames.
#[derive(Clone, Copy, Debug, PartialEq, Eq)]
pub struct Region {
    /// 1..999,999, no other region of its track's.
    pub id: u32,
    /// The source's index in the session, from 0.
    pub source: u32,
    /// The first frame of the source that is heard.
    pub start: u64,
    /// How many frames are heard, 1..2^40.
    pub length: u64,
    /// The position of its first frame on the timeline.
    pub at: u64,
    /// Higher layers lie over lower ones, 0..65,535.
    pub layer: u32,
    /// What its own sound is scaled by.
    pub gain: Gain,
    /// Whether it covers what lies below it, or is mixed with it.
    pub opaque: bool,
    /// The frames of its fade-in.
    pub fade_in: u64,
    /// The frames of its fade-out, with the fade-in at most `length` in all.
    pub fade_out: u64,
    /// How its fade-in goes.
    pub shape_in: Shape,
    /// How its fade-out goes.
    pub shape_out: Shape,
}
