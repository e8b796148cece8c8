//! Whether the media has files that are named as the takes of a session.
ghost use Rattle.std.specs.Prelude.{◌≡◌, ◌↔◌, ◌++◌, codes, IsTrue, IfOk};
ghost use Rattle.ses_io.specs.Files.{HasNameUnder};
ghost use Rattle.ses_io.specs.Outside.{OnlyReads, ReadCause};

use arrayvec::ArrayString;
use ses_io::{Failed, Media};
use ses_units::Name;
use session_model::Session;

// How the names of takes begin: a name of at most 24 bytes, and `-`.
fn prefix(takes: &Name) -> ArrayString<25>
    ensures { result.bytes ≡ takes.now ++ codes "-" }
{
    let mut text = ArrayString::new();
    text.push_str(takes.as_str());
    text.push_str("-");
    text
}

/// Whether the media has a name that begins with the session's take prefix and `-`.
pub fn has_takes<M: Media>(media: &mut M, session: &Session) -> Result<bool, Failed>
    ensures told { M.outside.tells → IfOk result (λ b. IsTrue b
        ↔ HasNameUnder (M.outside.files media.old) (session.now.takes ++ codes "-")) }
    ensures only_reads { OnlyReads M.outside media.old media.new }
    ensures cause { ReadCause M.outside media.old media.new result }
{
    media.any(prefix(&session.takes).as_str())
}
