//! The frames of a session's sources, read out of their WAV files.
#![tactic(auto)]

mod entry;
mod heading;
mod laws;
mod line;
mod lines;
mod long;
mod opening;
mod piece;
mod refusal;
mod sources;
mod span;
mod stretch;
mod view;

pub use laws::{frames_are_the_files, lists_hold_the_frames};
pub use refusal::{FileRefusal, OpenRefusal, ReadFault};
pub use sources::Sources;
pub use view::SourceView;
