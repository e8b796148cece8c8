//! Take files: what is recorded of each track goes into a WAV file a take, block by block, zeros for blocks that were lost.
#![tactic(auto)]

mod closing;
mod fault;
mod finishing;
mod flushing;
mod heads;
mod laws;
mod names;
mod run;
mod takes;
mod track;
mod writes;

pub use fault::WriteFault;
pub use laws::{a_head_keeps_up, a_lawful_journal_is_counted, an_early_end_is_in_part};
pub use takes::TakeFiles;
