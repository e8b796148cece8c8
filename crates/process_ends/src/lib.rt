//! The ends of a run's rings as the process has them: how they meet the butler's, one pair after the other, and how they are closed.
#![tactic(auto)]

mod ends;
mod meeting;

pub use ends::ProcessEnds;
pub use meeting::{close_all, meet_ends, meet_plays};
