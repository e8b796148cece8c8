//! Runs on three threads, drawn or by a script, and whether what they leave is as the house's own definitions have it.
#![tactic(auto)]

mod case;
mod draw;
mod drawn;
mod judging;
mod leaving;
mod opening;
mod playing;
mod replies;
mod takes;

pub use case::{Case, Fails, NOTHING, case_by};
pub use drawn::case_of;
pub use judging::{Found, judged};
pub use leaving::InMemory;
pub use opening::opened;
pub use playing::{Beside, found_of, threaded};
