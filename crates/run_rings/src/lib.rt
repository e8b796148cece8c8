//! The rings of a run: of each track one for its items and one for the blocks of its takes, and two
//! of acknowledgements. They are made, their ends are given to process, butler and control, and at
//! the end they are joined again.
#![tactic(auto)]

mod husks;
mod joining;
mod laws;
mod rings;
mod run_ends;

pub use husks::{Husk, new_ring};
pub use joining::{JoinedRings, RingsList, TrackRings, join_ends};
pub use laws::new_ends_fit;
pub use run_ends::{RunEnds, new_run_ends};
