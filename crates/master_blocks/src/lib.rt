//! The master of a run, block by block: the pieces of the tracks are put on a desk and mixed, and
//! the bytes of its master go into a sink, behind the header of their file.
#![tactic(auto)]

mod blocks;
mod laws;
mod writing;

pub use blocks::MasterBlocks;
pub use laws::the_master_is_its_blocks;
