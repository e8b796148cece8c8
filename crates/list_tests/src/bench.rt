//! A list of a session of the master alone, and edits that may follow.
ghost use Rattle.std.specs.Prelude.{◌≡◌, [], false, IfOk};

use edition_log::Edition;
use route_lists::{ListReader, Lists, PublishRefusal, lists};
use ses_io::NoMemory;
use session_model::Edit;
use session_toml::session_of;
use std::alloc::Global;
use std::sync::Wait;

const MASTER_ALONE: &str = r#"
[session]
version = 1
rate = 48000
bits = 16
channels = 1
block = 4
depth = 2
"#;

// Edition 0 of that session.
fn opening(alloc: Global) -> Result<Edition, NoMemory>
    ensures { IfOk result (λ e. (e.edits ≡ []) × (e.ended ≡ false)) }
{
    let Ok(session) = session_of(alloc, MASTER_ALONE.as_bytes()) else {
        return Err(NoMemory);
    };
    Edition::opening(alloc, session)
}

/// The writer of a new list, and its two readers.
pub(crate) fn new_lists<'r, R: Wait>(
    rt: &'r R,
    alloc: Global,
) -> Result<(Lists<'r, R>, ListReader, ListReader), NoMemory>
    ensures { IfOk result (λ t. (t.1.table ≡ t.0.table) × (t.2.table ≡ t.0.table)) }
{
    lists(rt, alloc, opening(alloc)?)
}

/// Publishes an edit of the transport or of a track's arming, where one may follow.
pub(crate) fn publish<'r, R: Wait>(
    lists: Lists<'r, R>,
    edit: Edit,
) -> (Lists<'r, R>, Option<Result<u32, PublishRefusal>>) {
    match edit {
        Edit::Roll
        | Edit::Stop
        | Edit::Locate { .. }
        | Edit::Loop { .. }
        | Edit::LoopOff
        | Edit::Arm { .. }
            if !lists.edition().ended() && !lists.edition().transport().quit => {
            let (lists, answer) = lists.apply_and_publish(&edit);
            (lists, Some(answer))
        }
        _ => (lists, None),
    }
}

/// Ends the list where it hasn't ended, and tells whether that was published.
pub(crate) fn end<'r, R: Wait>(lists: Lists<'r, R>) -> (Lists<'r, R>, bool) {
    if lists.edition().ended() {
        return (lists, false);
    }
    let (lists, answer) = lists.end();
    (lists, answer.is_ok())
}

/// A reader that entered, and whether it could.
pub(crate) fn entered(reader: ListReader) -> (ListReader, bool) {
    match reader.enter() {
        Ok(reader) => (reader, true),
        Err(reader) => (reader, false),
    }
}

/// Whether the reader has just the writer's list, of so many edits.
pub(crate) fn is_at<R: Wait>(reader: &ListReader, lists: &Lists<R>, number: u32) -> bool {
    reader.is_at(lists) && reader.edition().number() == number
}
