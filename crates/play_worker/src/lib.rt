//! The process beside other workers: its cycles, whose pieces it looks for with patience. It is given nothing
//! to wait with.
#![tactic(auto)]

mod cycle;
mod looks;
mod playing;
mod told;
mod worker;

pub use cycle::play_cycle;
pub use looks::look_up;
pub use playing::{Played, play};
pub use told::Told;
pub use worker::{Ended, PlayWorker};
