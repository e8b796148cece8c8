//! The edits of a run, one accepted after the other, each with what it changes of the session.
#![tactic(auto)]

mod history;
mod laws;
mod step;

pub use history::{EditHistory, HistoryRefusal};
pub use laws::{each_change_is_of_the_touched_playlist, each_change_makes_the_next_edition};
