//! What a run notes of each of its cycles, how it ends, and its report.
#![tactic(auto)]

mod entry;
mod head;
mod journal;
mod lines;
mod note;
mod page;
mod status;
mod writing;

pub use entry::{Entry, State};
pub use head::ReportHead;
pub use journal::Journal;
pub use note::{Note, Play, Take};
pub use status::{InputRefusal, Status};
pub use writing::write_report;
