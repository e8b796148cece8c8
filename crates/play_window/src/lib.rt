//! The window of one track: the newest piece of each block that is still to be played, and the marks in force.
#![tactic(auto)]

mod boxes;
mod laws;
mod window;

pub use laws::{unheld_items_are_taken_in, windows_show_the_newest};
pub use window::{Offer, Window};
