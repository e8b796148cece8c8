//! The file of a session's master: a header, blocks of frames, and a pad byte where the bytes of the frames are odd.
ghost use Rattle.std.specs.Prelude.{◌≡◌, ◌<◌, ◌≤◌, ◌^◌, ◌*◌, ◌%◌, replicate, Err, IfErr};
ghost use Rattle.ses_io.specs.Faults.{HasCause};
ghost use Rattle.ses_io.specs.Outside.{Writes};
ghost use Rattle.sound_model.specs.Wav.{align, header};
ghost use Rattle.session_model.specs.Frames.{sounds_of};
ghost use Rattle.session_model.specs.Valid.{IsValid};
ghost use Rattle.playlist_layers.specs.Reads.{IsRead};
ghost use Rattle.engine_model.specs.Played.{master_form};
ghost use Rattle.offline_render.specs.Frame.{named_channels};
ghost use Rattle.master_render.specs.Offline.{offline_file};
ghost use Rattle.master_render.specs.Written.{IsWritten, IsUntouched, reading, writing};

use crate::desk::Desk;
use crate::fault::RenderFault;
use crate::form::{form_of, sample_size, width};
use crate::samples::put;
use ses_io::Sink;
use session_model::{Frames, Session};
use std::alloc::Global;
use wav_codec::canon_is_header_and_sound;

// Writes the header of a file of so many frames.
fn begin<W: Sink>(s: &Session, frames: u32, master: &mut W) -> Result<(), RenderFault>
    requires valid { IsValid s.now }
    requires frames { frames ≤ 409600000 }
    ensures writes { Writes W.outside
        (header (master_form s.now) (frames * align (master_form s.now)))
        master.old master.new result }
    ensures fault { IfErr result (λ e. e ≡ RenderFault.MasterFault) }
{
    let head = wav_codec::header(&form_of(s), u64::from(frames));
    put(&head, master)
}

// Writes a pad byte where the bytes of so many frames are odd.
fn pad<W: Sink>(s: &Session, frames: u32, master: &mut W) -> Result<(), RenderFault>
    requires valid { IsValid s.now }
    requires frames { frames ≤ 409600000 }
    ensures writes { Writes W.outside (replicate (frames * align (master_form s.now) % 2) 0)
        master.old master.new result }
    ensures fault { IfErr result (λ e. e ≡ RenderFault.MasterFault) }
{
    let bytes = frames as usize * width(s) * sample_size(s.bits);
    if bytes % 2 == 1 {
        return put(&[0], master);
    }
    Ok(())
}

/// Writes the WAV file of so many frames, 0..409,600,000, of the session's master from position `from` on, below 2^40.
/// After a fault a front of it is written; want of memory is told before anything is read or written.
pub fn render_master<F: Frames, W: Sink>(
    alloc: Global,
    s: &Session,
    from: u64,
    frames: u32,
    reader: &mut F,
    master: &mut W,
) -> Result<(), RenderFault>
    requires valid { IsValid s.now }
    requires sources { F.outside.channels reader.old ≡ named_channels s.now }
    requires from { from < 2 ^ 40 }
    requires frames { frames ≤ 409600000 }
    ensures written { F.outside.tells reader.old → W.outside.tells → IsWritten W.outside
        (offline_file (sounds_of (F.outside.frames reader.old)) s.now from frames)
        master.old master.new result }
    ensures read { IsRead F.outside F.rest reader.old reader.new (reading result) }
    ensures cause { HasCause (W.outside.faults master.old) (W.outside.faults master.new)
        (writing result) }
    ensures memory { result ≡ Err RenderFault.NoMemory
        → IsUntouched reader.old reader.new master.old master.new }
{
    // Its contract is the law that the file is proved by.
    canon_is_header_and_sound();
    let mut desk = Desk::new(alloc, s)?;
    begin(s, frames, master)?;
    desk.write(s, from, frames, reader, master)?;
    pad(s, frames, master)
}
