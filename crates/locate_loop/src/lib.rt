//! The transport of an edition, and the places of a generation's frames, also round a loop.
#![tactic(auto)]

mod frames;
mod transport;

pub use frames::places;
pub use transport::{Transport, Wrap};
