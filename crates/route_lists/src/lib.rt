//! One list of accepted edits, which one writer publishes and two readers enter without a lock or a wait.
#![tactic(auto)]

mod catching_up;
mod known;
mod making;
mod reading;
mod same_edit;
mod shelf;
mod step;
mod writing;

pub use making::lists;
pub use reading::ListReader;
pub use writing::{Lists, PublishRefusal};
