//! Bytes are held against those of a file.
ghost use Rattle.std.specs.Prelude.{◌≡◌, ◌+◌, ◌<◌, ◌≤◌, ◌^◌, length, IfOk};
ghost use Rattle.ses_io.specs.Files.{content};
ghost use Rattle.ses_io.specs.Outside.{OnlyReads, ReadCause};
ghost use Rattle.report_verdict.specs.Master.{stand_at};

use ses_io::{Failed, Media, read_at_full};

/// Whether these bytes stand in a file at a place. What is read of it goes into the room.
pub fn holds<M: Media>(
    media: &mut M,
    name: &str,
    place: u64,
    piece: &[u8],
    room: &mut [u8],
) -> Result<bool, Failed>
    requires room { length piece.now ≤ length room.old }
    requires near { place + length piece.now < 2 ^ 64 }
    ensures told { M.outside.tells → IfOk result (λ held. held
        ≡ stand_at place piece.now (content (M.outside.files media.old) name.now)) }
    ensures long { length room.new ≡ length room.old }
    ensures only_reads { OnlyReads M.outside media.old media.new }
    ensures cause { ReadCause M.outside media.old media.new result }
{
    let front = &mut room[..piece.len()];
    let read = read_at_full(media, name, place, front)?;
    Ok(read == piece.len() && *front == *piece)
}
