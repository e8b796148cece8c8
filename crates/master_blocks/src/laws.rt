//! What the file of a master is, as a function that does nothing and whose contract is the law.
ghost use Rattle.master_blocks.specs.Laws.{TheMasterIsItsBlocks};

/// The master's file is its header, the blocks of its entries, silence for the cycles that weren't
/// made, and a pad byte where its bytes are odd in number.
#[tactic(auto, using(crate::proofs::FileLemmas::the_master_is_its_blocks))]
pub fn the_master_is_its_blocks()
    ensures { TheMasterIsItsBlocks }
{}
