//! Butler and process on one thread: each step is a step of the core machine. Between two steps the
//! ends of each ring have met: each has told the other what it knows, as two threads would by and
//! by.
#![tactic(auto)]

mod beginning;
mod ending;
mod entering;
mod pair;
mod playing;
mod turning;

pub use beginning::{Start, new_workers};
pub use ending::{Ending, Stopped};
pub use pair::Pair;
