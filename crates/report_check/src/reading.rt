//! The files of a run that is checked: the report, read whole, and pieces of the master.
ghost use Rattle.std.specs.Prelude.{◌≡◌, ◌+◌, ◌<◌, ◌^◌, length, replicate, IfOk};
ghost use Rattle.ses_io.specs.Faults.{HasCause};
ghost use Rattle.ses_io.specs.Files.{content};
ghost use Rattle.ses_io.specs.Outside.{OnlyReads};
ghost use Rattle.heard_blocks.specs.Reading.{reading};
ghost use Rattle.report_verdict.specs.Master.{stand_at};

use heard_blocks::HeardFault;
use master_file::holds;
use ses_io::{Media, NoMemory, read_at_full};
use std::alloc::Global;

/// So many bytes of 0.
pub(crate) fn zeros(alloc: Global, long: usize) -> Result<Vec<u8>, NoMemory>
    ensures { IfOk result (λ v. v.items ≡ replicate long 0) }
{
    Ok(vec![in alloc; 0; long]?)
}

/// All bytes of a file; an absent one has none.
pub(crate) fn bytes_in<M: Media>(
    alloc: Global,
    media: &mut M,
    name: &str,
) -> Result<Vec<u8>, HeardFault>
    ensures bytes { M.outside.tells
        → IfOk result (λ v. v.items ≡ content (M.outside.files media.old) name.now) }
    ensures most { IfOk result (λ v. length v.items < 2 ^ 63) }
    ensures only_reads { OnlyReads M.outside media.old media.new }
    ensures cause { HasCause (M.outside.read_faults media.old)
        (M.outside.read_faults media.new) (reading result) }
{
    let Ok(size) = media.size(name) else {
        return Err(HeardFault::ReadFault);
    };
    let mut bytes = zeros(alloc, size.unwrap_or(0) as usize)?;
    let Ok(filled) = read_at_full(media, name, 0, bytes.as_mut_slice()) else {
        return Err(HeardFault::ReadFault);
    };
    bytes.truncate(filled);
    Ok(bytes)
}

/// Whether a piece stands in the master's file at a place.
pub(crate) fn stands<M: Media>(
    alloc: Global,
    media: &mut M,
    master: &str,
    place: u64,
    piece: &[u8],
) -> Result<bool, HeardFault>
    requires near { place + length piece.now < 2 ^ 64 }
    ensures told { M.outside.tells → IfOk result (λ held. held
        ≡ stand_at place piece.now (content (M.outside.files media.old) master.now)) }
    ensures only_reads { OnlyReads M.outside media.old media.new }
    ensures cause { HasCause (M.outside.read_faults media.old)
        (M.outside.read_faults media.new) (reading result) }
{
    let mut room = zeros(alloc, piece.len())?;
    holds(media, master, place, piece, room.as_mut_slice()).map_err(|_| HeardFault::ReadFault)
}
