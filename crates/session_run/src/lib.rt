//! The top calls: `run` does all that the program does, over a world of its caller's, and `run_alone` does it without a runtime.
#![tactic(auto)]

mod answer;
mod check;
mod generate;
mod migrate;
mod render;
mod task;
mod top;
mod verify;
mod writing;

pub use audio_source::FileRefusal;
pub use cycle_journal::{InputRefusal, Status};
pub use session_play::Outcome;
pub use top::{run, run_alone};
