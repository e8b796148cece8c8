//! Control on one thread: its lines are carried out one after another, and each that says something is answered
//! to out.
#![tactic(auto)]

mod control;
mod laws;
mod line;
mod parts;
mod progress;
mod reply;
mod script;
mod standing;

pub use control::Control;
pub use laws::{
    edits_are_done, edits_are_said, lines_are_done, what_is_awaited_stands,
    what_is_over_is_answered,
};
pub use parts::ControlParts;
pub use progress::{Awaited, Progress};
