//! The input of a run, read block by block: one WAV stream whose head was read before, and silence past its end.
#![tactic(auto)]

mod blocks;
mod fault;
mod filling;
mod laws;

pub use blocks::InputBlocks;
pub use fault::InputFault;
pub use laws::sound_of_the_rest;
