//! The form of a master's file: its header, its length and its pad byte.
ghost use Rattle.std.specs.Prelude.{◌≡◌, ◌+◌, ◌<◌, ◌≤◌, ◌/◌, length, IfOk};
ghost use Rattle.ses_io.specs.Files.{content};
ghost use Rattle.ses_io.specs.Outside.{OnlyReads, ReadCause};
ghost use Rattle.ses_units.specs.Bits.{bits_of};
ghost use Rattle.session_model.specs.Valid.{IsValid};
ghost use Rattle.engine_model.specs.Played.{master_channels};
ghost use Rattle.master_blocks.specs.Bytes.{data_bytes, head_bytes};
ghost use Rattle.report_verdict.specs.Master as file;

use crate::holding::holds;
use ses_io::{Failed, Media};
use ses_units::Bits;
use session_model::Session;

// The channels of the master, which is the last route.
fn master_channels(s: &Session) -> u16
    requires { IsValid s.now }
    ensures { result ≡ master_channels s.now }
{
    let routes = s.routes.as_slice();
    routes[routes.len() - 1].channels
}

// The bytes of a sample.
fn sample_long(bits: Bits) -> u64
    ensures long { result ≡ bits_of bits / 8 }
    ensures most { result ≤ 3 }
{
    match bits {
        Bits::B16 => 2,
        Bits::B24 => 3,
    }
}

/// The bytes of so many blocks of the master.
pub fn data_long(s: &Session, blocks: u32) -> u64
    requires valid { IsValid s.now }
    requires few { blocks ≤ 100000 }
    ensures long { result ≡ data_bytes s.now blocks }
    ensures most { result ≤ 2457600000 }
{
    let samples = u64::from(s.block) * u64::from(master_channels(s));
    u64::from(blocks) * samples * sample_long(s.bits)
}

/// Whether the master's file has the session's form with so many blocks, of which this is the header.
pub fn has_form<M: Media>(
    media: &mut M,
    name: &str,
    s: &Session,
    blocks: u32,
    head: &[u8],
    room: &mut [u8],
) -> Result<bool, Failed>
    requires valid { IsValid s.now }
    requires few { blocks ≤ 100000 }
    requires head { head.now ≡ head_bytes s.now blocks }
    requires room { 44 < length room.old }
    ensures told { M.outside.tells → IfOk result (λ held. held
        ≡ file.has_form s.now blocks (content (M.outside.files media.old) name.now)) }
    ensures long { length room.new ≡ length room.old }
    ensures only_reads { OnlyReads M.outside media.old media.new }
    ensures cause { ReadCause M.outside media.old media.new result }
{
    let data = data_long(s, blocks);
    let size = media.size(name)?.unwrap_or(0);
    if size != 44 + data + data % 2 {
        return Ok(false);
    }
    if !holds(media, name, 0, head, room)? {
        return Ok(false);
    }
    if data % 2 == 0 {
        return Ok(true);
    }
    holds(media, name, 44 + data, &[0], room)
}
