//! Reading ahead: of each track what is due is made in a spare box, and sent before it is played. Five numbers stand for all
//! that was sent of a track; an item that was made and finds no room is kept as it was made.
#![tactic(auto)]

mod beginning;
mod pass;
mod progress;
mod sending;
mod serving;
mod supply;
mod target;

pub use beginning::supplies;
pub use pass::Pass;
pub use serving::{close_all, enter_all, send_all};
pub use supply::{SourceReader, TrackSupply};
