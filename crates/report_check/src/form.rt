//! The first line of a report behind `report 1`, which says its form.
ghost use Rattle.std.specs.Prelude.{◌≡◌, ◌≤◌, IfOk};
ghost use Rattle.ses_io.specs.Faults.{HasCause};
ghost use Rattle.ses_io.specs.Files.{content};
ghost use Rattle.ses_io.specs.Outside.{OnlyReads};
ghost use Rattle.session_model.specs.Valid.{IsValid};
ghost use Rattle.engine_model.specs.Played.{master_channels};
ghost use Rattle.heard_blocks.specs.Reading.{reading};
ghost use Rattle.master_blocks.specs.Bytes.{head_bytes};
ghost use Rattle.report_verdict.specs.Lines as lines;

use crate::reading::zeros;
use cycle_journal::ReportHead;
use heard_blocks::HeardFault;
use master_file::has_form;
use ses_io::Media;
use session_model::Session;
use std::alloc::Global;
use wav_codec::{WavForm, header};

// The channels of the master, which is the last route.
fn master_channels(s: &Session) -> u16
    requires { IsValid s.now }
    ensures { result ≡ master_channels s.now }
{
    let routes = s.routes.as_slice();
    routes[routes.len() - 1].channels
}

// Whether it is the form of the session.
fn is_head_of(s: &Session, head: &ReportHead) -> bool
    requires { IsValid s.now }
    ensures { result ≡ lines.is_head_of s.now head.now }
{
    head.rate == s.rate
        && head.bits == s.bits
        && head.channels == master_channels(s)
        && head.block == s.block
}

// The header of the master of a session with so many blocks.
fn master_head(s: &Session, blocks: u32) -> [u8; 44]
    requires valid { IsValid s.now }
    requires few { blocks ≤ 100000 }
    ensures { result ≡ head_bytes s.now blocks }
{
    let form = WavForm {
        channels: master_channels(s),
        rate: s.rate,
        bits: s.bits,
    };
    header(&form, u64::from(blocks) * u64::from(s.block))
}

/// Whether it is the session's, and the master's file has that form.
pub(crate) fn form_stands<M: Media>(
    alloc: Global,
    media: &mut M,
    s: &Session,
    head: &ReportHead,
    master: &str,
) -> Result<bool, HeardFault>
    requires valid { IsValid s.now }
    requires few { head.now.cycles ≤ 100000 }
    ensures told { M.outside.tells → IfOk result (λ stands. stands
        ≡ lines.form_stands s.now head.now (content (M.outside.files media.old) master.now)) }
    ensures only_reads { OnlyReads M.outside media.old media.new }
    ensures cause { HasCause (M.outside.read_faults media.old)
        (M.outside.read_faults media.new) (reading result) }
{
    if !is_head_of(s, head) {
        return Ok(false);
    }
    let bytes = master_head(s, head.cycles);
    let mut room = zeros(alloc, 45)?;
    has_form(media, master, s, head.cycles, &bytes, room.as_mut_slice()).map_err(
        |_| HeardFault::ReadFault,
    )
}
