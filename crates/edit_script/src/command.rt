//! What a control line says.
use session_model::Edit;

/// What a control line says.
#[derive(Clone, Copy)]
pub enum Command {
    /// The session or its transport changes.
    Do(Edit),
    /// So many further cycles run before the next line, 1 to 100,000.
    Wait(u32),
    /// The next line waits until all that was changed is heard.
    Sync,
    /// The line has no word, or is a comment.
    Nothing,
}
