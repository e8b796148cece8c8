//! The end of a master's file, which is silent behind the blocks that were made.
ghost use Rattle.std.specs.Prelude.{◌≡◌, ◌≤◌, length, IfOk};
ghost use Rattle.ses_io.specs.Files.{content};
ghost use Rattle.ses_io.specs.Outside.{OnlyReads, ReadCause};
ghost use Rattle.session_model.specs.Valid.{IsValid};
ghost use Rattle.master_blocks.specs.Bytes.{silent_bytes};
ghost use Rattle.report_verdict.specs.Master.{is_silent_from};

use crate::form::data_long;
use crate::holding::holds;
use ses_io::{Failed, Media};
use session_model::Session;

/// Whether a master's file is silent from a block on up to a last one, block by block; this is a block of silence.
pub fn is_silent<M: Media>(
    media: &mut M,
    name: &str,
    s: &Session,
    from: u32,
    to: u32,
    silence: &[u8],
    room: &mut [u8],
) -> Result<bool, Failed>
    requires valid { IsValid s.now }
    requires order { from ≤ to }
    requires few { to ≤ 100000 }
    requires silence { silence.now ≡ silent_bytes s.now 1 }
    requires room { length silence.now ≤ length room.old }
    ensures told { M.outside.tells → IfOk result (λ silent. silent
        ≡ is_silent_from s.now from to (content (M.outside.files media.old) name.now)) }
    ensures only_reads { OnlyReads M.outside media.old media.new }
    ensures cause { ReadCause M.outside media.old media.new result }
{
    for block in from..to {
        let place = 44 + data_long(s, block);
        if !holds(media, name, place, silence, room)? {
            return Ok(false);
        }
    }
    Ok(true)
}
