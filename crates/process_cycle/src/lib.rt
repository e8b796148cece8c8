//! The process: it looks at the rings of pieces, reads the input, plays what it received, captures
//! what is recorded, and notes each cycle.
//!
//! To *gather* is one look of each track, in the edition that it is given. A *cycle* reads a block
//! of the input, mixes and writes the master, captures the tracks that are recorded, notes its
//! entry, and acknowledges it to butler and control. Neither takes memory or a lock, nor waits for
//! another worker.
#![tactic(auto)]

mod ack_sender;
mod capturing;
mod fault;
mod laws;
mod position;
mod process;
mod putting;

pub use fault::CycleFault;
pub use laws::{promises_are_counted, promises_are_truthful, told_is_settled};
pub use process::{Look, Process, ProcessParts};
