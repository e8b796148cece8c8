//! The gains of a block: fade values of a region, and the gains of a route by its fader or lane.
//! A line goes on by a step and a remainder, so that only where it begins there is a division.
#![tactic(auto)]

mod even;
mod fades;
mod lanes;
mod laws;
mod line;
mod piece;
mod walk;

pub use even::even_gain;
pub use fades::{fade_block, is_unfaded};
pub use lanes::lane_block;
pub use laws::{gains_stay_quiet, lane_is_the_line, lanes_rise};
