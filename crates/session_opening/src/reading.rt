//! A file of the media, read whole.
ghost use Rattle.std.specs.Prelude.{◌≡◌, take, IfOk};
ghost use Rattle.ses_io.specs.Outside.{OnlyReads};
ghost use Rattle.ses_io.specs.Files.{content};
ghost use Rattle.session_opening.specs.Causes.{UnreadCause};

use ses_io::{Failed, Media, read_at_full};
use std::alloc::{AllocError, Global};

/// Why a file isn't read.
#[derive(Clone, Copy, PartialEq, Eq)]
pub enum Unread {
    /// A read failed, and the media's count of them rose.
    Fault,
    NoMemory,
}

impl From<AllocError> for Unread {
    ghost use Rattle.std.specs.Prelude.{◌≡◌};
    ghost use Rattle.session_opening.specs.declared.reading.Unread.TheVariants.{NoMemory};

    ghost from_gives = { λ _ e. e ≡ NoMemory };

    fn from(_error: AllocError) -> Unread {
        Unread::NoMemory
    }
}

impl From<Failed> for Unread {
    ghost use Rattle.std.specs.Prelude.{◌≡◌};
    ghost use Rattle.session_opening.specs.declared.reading.Unread.TheVariants.{Fault};

    ghost from_gives = { λ _ e. e ≡ Fault };

    fn from(_error: Failed) -> Unread {
        Unread::Fault
    }
}

/// The first bytes of a file, as many as its size told.
pub(crate) fn read_whole<M: Media>(
    alloc: Global,
    media: &mut M,
    name: &str,
    size: u64,
) -> Result<Vec<u8>, Unread>
    ensures bytes { M.outside.tells
        → IfOk result (λ v. v.items ≡ take size (content (M.outside.files media.old) name.now)) }
    ensures only_reads { OnlyReads M.outside media.old media.new }
    ensures cause { UnreadCause M.outside media.old media.new result }
{
    let mut bytes = vec![in alloc; 0; size as usize]?;
    let filled = read_at_full(media, name, 0, bytes.as_mut_slice())?;
    bytes.truncate(filled);
    Ok(bytes)
}
