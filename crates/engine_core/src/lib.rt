//! A run on one thread, whole: the events that it is given, its serial rest, and its end. What it leaves is said whatever fails, and
//! where nothing of butler and process has failed it is the core machine's, letter by letter.
#![tactic(auto)]

mod beginning;
mod carrying;
mod cycle;
mod engine;
mod events;
mod finishing;
mod letters;
mod mastering;
mod rest;
mod run;
mod running;

pub use run_letters::Event;
pub use running::run_events;
