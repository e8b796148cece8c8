//! The end of a run, whichever threads it ran on: once the process has ended, the butler takes its last turns, the takes are made whole,
//! and the rings are joined. What a run leaves is said here, for each kind of run alike.
#![tactic(auto)]

mod draining;
mod failures;
mod leaving;
mod lists;
mod parting;

pub use draining::is_idle;
pub use failures::Failures;
pub use leaving::leave;
pub use lists::RunLists;
pub use parting::RunEnd;
