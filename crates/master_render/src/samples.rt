//! Samples of the master: read and mixed frame by frame, and written as bytes.
ghost use Rattle.std.specs.Prelude.{◌≡◌, ◌+◌, ◌*◌, ◌/◌, ◌<◌, ◌≤◌, ◌^◌, length, take, OnOk, IfErr};
ghost use Rattle.ses_units.specs.Bits.{bits_of};
ghost use Rattle.ses_io.specs.Outside.{Writes};
ghost use Rattle.sound_model.specs.Wav.{sound_bytes};
ghost use Rattle.session_model.specs.Frames.{sounds_of};
ghost use Rattle.session_model.specs.Valid.{IsValid};
ghost use Rattle.session_model.specs.Views.{routes_of};
ghost use Rattle.route_graph.specs.Order.{IsOrder};
ghost use Rattle.playlist_layers.specs.Reads.{IsRead};
ghost use Rattle.engine_model.specs.Played.{master_channels};
ghost use Rattle.offline_render.specs.Frame.{named_channels};
ghost use Rattle.master_render.specs.Offline.{offline_samples};

use crate::fault::RenderFault;
use crate::form::{sample_size, width};
use offline_render::Offline;
use route_graph::Order;
use ses_io::{Failed, Sink, write_all};
use ses_units::Bits;
use session_model::{Frames, Session};
use wav_codec::encode;

/// Fills the front of `out` with so many frames of the master from a place on. What it holds after Failed isn't said.
pub(crate) fn fill<F: Frames>(
    offline: &mut Offline,
    s: &Session,
    order: &Order,
    reader: &mut F,
    from: u64,
    count: u32,
    out: &mut [i32],
) -> Result<(), Failed>
    requires valid { IsValid s.now }
    requires order { IsOrder (routes_of s.now) order.now }
    requires sources { F.outside.channels reader.old ≡ named_channels s.now }
    requires near { from + count < 2 ^ 41 }
    requires room { count * master_channels s.now ≤ length out.old }
    ensures told { F.outside.tells reader.old → OnOk result
        (take (count * master_channels s.now) out.new
        ≡ offline_samples (sounds_of (F.outside.frames reader.old)) s.now from count) }
    ensures read { IsRead F.outside F.rest reader.old reader.new result }
{
    let width = width(s);
    for i in 0..count {
        let at = i as usize * width;
        offline.frame(
            s,
            order,
            reader,
            from + u64::from(i),
            &mut out[at..at + width],
        )?;
    }
    Ok(())
}

/// Writes all of these bytes, or a front of them at MasterFault.
pub(crate) fn put<W: Sink>(bytes: &[u8], master: &mut W) -> Result<(), RenderFault>
    ensures writes { Writes W.outside bytes.now master.old master.new result }
    ensures fault { IfErr result (λ e. e ≡ RenderFault.MasterFault) }
{
    write_all(master, bytes).map_err(|_| RenderFault::MasterFault)
}

/// Writes samples as a file of these bits has them, by a buffer with room for their bytes.
pub(crate) fn write_samples<W: Sink>(
    samples: &[i32],
    bits: Bits,
    bytes: &mut [u8],
    master: &mut W,
) -> Result<(), RenderFault>
    requires room { length samples.now * 3 ≤ length bytes.old }
    ensures writes { Writes W.outside (sound_bytes (bits_of bits) samples.now)
        master.old master.new result }
    ensures fault { IfErr result (λ e. e ≡ RenderFault.MasterFault) }
{
    let part = &mut bytes[..samples.len() * sample_size(bits)];
    encode(samples, bits, part);
    put(part, master)
}
