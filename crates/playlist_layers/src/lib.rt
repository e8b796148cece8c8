//! The sound of a track: a block of it is its track sample at each frame, by regions in layers.
#![tactic(auto)]

mod heard;
mod laws;
mod layers;
mod rendering;
mod scratch;
mod spans;

pub use laws::what_is_hidden_is_not_heard;
pub use rendering::render;
pub use scratch::Scratch;
