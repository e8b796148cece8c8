//! The small values that every layer speaks of: gains, names, lanes and the numbers of a sample.
#![tactic(auto)]

mod bits;
mod gain;
mod lane;
pub mod limits;
mod mode;
mod name;
mod number;
mod point;
mod refusal;
mod shape;

pub use bits::Bits;
pub use gain::{Gain, TooLoud};
pub use lane::{Lane, LaneFull, NoPoint};
pub use mode::Mode;
pub use name::{Name, NotName};
pub use number::{clip, file_sample, scale};
pub use point::Point;
pub use refusal::LaneRefusal;
pub use shape::Shape;
