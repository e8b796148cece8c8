//! The control script: one line, one command, and the one canonical line of an edit.
#![tactic(auto)]

mod choices;
mod command;
mod laws;
mod line;
mod parsing;
mod refusal;
mod text;
mod verb;
mod words;

pub use command::Command;
pub use laws::{
    each_verb_makes, first_wrong_is_named, lines_are_short, lines_tell_edits, printed_is_read,
    read_can_be_said, waits_are_few,
};
pub use parsing::parse;
pub use refusal::LineRefusal;
pub use text::text_of;
