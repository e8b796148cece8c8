//! The letters of a run, as events, and as its words ask for them: read one by one, or made from a seed.
#![tactic(auto)]

mod event;
mod seeds;
mod steps;

pub use event::Event;
pub use seeds::seeded;
pub use steps::stepped;
