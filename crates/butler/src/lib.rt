//! The butler, the thread that does the disk work: it reads ahead and sends each track's pieces and
//! marks before they are played, and writes the blocks that were recorded into the files of their
//! takes.
#![tactic(auto)]

mod accepting;
mod butler;
mod faults;
mod hushing;
mod laws;
mod meeting;
mod resting;
mod steps;
mod turning;

pub use butler::Butler;
pub use faults::ButlerFault;
pub use laws::{
    a_turn_of_one_is_one_move, meeting_keeps, sources_are_no_takes, the_move_is_the_core_machines,
};
pub use resting::{ButlerParts, Resting};
pub use turning::Turn;
