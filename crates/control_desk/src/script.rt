//! The two lines of an export, in place of lines that are read.
use session_model::Edit;

/// What is said next.
#[derive(Clone, Copy)]
pub(crate) enum Script {
    /// Lines are read.
    Absent,
    /// Locate there, in frames, and then roll.
    Locate(u64),
    /// Roll.
    Roll,
    /// All was said.
    Said,
}
