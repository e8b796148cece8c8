//! The last line of out, from how a run ended.
#![tactic(auto)]

mod fault;
mod file;
mod line;
mod place;
mod session;

pub use fault::{FaultWords, write_fault};
