//! Control's bytes, read line by line as they come.
#![tactic(auto)]

mod begun;
mod lines;

pub use lines::ControlLines;
