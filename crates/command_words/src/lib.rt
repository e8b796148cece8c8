//! What the words of the command line ask for, read whole: a command with all that it needs, or no command.
#![tactic(auto)]

mod asked;
mod commands;
mod modes;
mod numbers;
mod options;
mod parts;
mod verbs;

pub use asked::{Command, Export, Mode, Play, Render, Verify};
pub use commands::command;
