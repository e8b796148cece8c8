//! The line of a session that is made from a number: it is exported in memory, and the samples of its master are added up.
#![tactic(auto)]

mod export;
mod files;
mod generating;
mod laws;
mod line;
mod sums;

pub use generating::gen_line;
