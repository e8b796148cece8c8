//! The state of a session after so many accepted edits, with room for every limit reserved once.
#![tactic(auto)]

mod changing;
mod edition;
mod laws;
mod moving;
mod types;

pub use edit_resolve::{Bound, Refusal};
pub use edition::Edition;
pub use laws::{editions_play_their_places, transport_edits_leave_the_session};
