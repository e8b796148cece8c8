//! The workers of a run on threads, before the first thread starts: with all their memory, the list and the rings that they share.
#![tactic(auto)]

mod shared;
mod workers;

pub use workers::{Workers, ready};
