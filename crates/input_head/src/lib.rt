//! The head of a run's input, read before anything plays, and judged against the session.
#![tactic(auto)]

mod fetching;
mod heading;
mod judging;
mod laws;
mod opening;
mod refusal;

pub use laws::wanted_is_the_greatest;
pub use opening::open_input;
pub use refusal::NoInput;
