//! How a fade goes.

/// The shape of a fade (own; slow isn't the curve that Ardour calls so).
#[derive(Clone, Copy, Debug, PartialEq, Eq)]
pub enum Shape {
    /// The gain goes along a straight line.
    Linear,
    /// The gain is the square of the straight line's.
    Slow,
}
