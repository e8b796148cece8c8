//! The butler beside other workers: its turns, each in the newest edition, and its rests, until its rings are closed.
#![tactic(auto)]

mod faults;
mod serving;
mod told;
mod worker;

pub use faults::MediaFaults;
pub use serving::{ServeEnd, serve};
pub use told::ServeTold;
pub use worker::ServeWorker;
