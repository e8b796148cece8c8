//! What a run begins with, and what it leaves.
#![tactic(auto)]

mod finished;
mod opened;

pub use finished::{Faults, Finished, Grant};
pub use opened::{Opened, Script};
