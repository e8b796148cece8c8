//! The blocks of a master as a journal says that they were heard.
#![tactic(auto)]

mod blocks;
mod fault;
mod lists;
mod master;
mod tracks;

pub use blocks::HeardBlocks;
pub use fault::HeardFault;
