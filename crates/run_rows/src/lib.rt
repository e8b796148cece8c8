//! Rows of whole runs: what a run is given, in memory, by which words it is run, and whether it leaves what was worked out.
#![tactic(auto)]

mod basics;
mod files;
mod leaving;
mod playing;
mod row;
mod world;

pub use basics::{EXPORT, ONE_TAKE, ONE_TO_EIGHT, WAIT_THEN_LOCATE};
pub use files::wav;
pub use leaving::{Left, left_by, left_of};
pub use playing::{Ended, ran, ran_by, ran_in};
pub use row::{BASE, EIGHT, Fails, LONG, NOTHING, Row, SERIAL};
pub use world::{Memory, world_of};
