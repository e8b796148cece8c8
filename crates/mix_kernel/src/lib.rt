//! The kernels of a block: samples scaled, summed, laid over and clipped, item by item.
//! A block is as long as its slices, and each call is its plain formula at every length.
#![tactic(auto)]

mod clipping;
mod item;
mod layers;
mod sides;
mod spreading;
mod sums;

pub use clipping::{clip_all, clip_file, scale_block, scale_each};
pub use layers::lay_over;
pub use sides::add_sides;
pub use spreading::spread;
pub use sums::{add_even, add_scaled};
