//! A play on three threads: control, butler and process side by side, and what they leave.
#![tactic(auto)]

mod beginning;
mod ending;
mod giving_up;
mod meeting;
mod playing;
mod side_by_side;
mod tying;

pub use playing::play;
