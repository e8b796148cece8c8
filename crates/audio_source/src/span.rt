//! Up to 4,096 frames of a source, read in one where the media gives them so, and 0 past the end.
ghost use Rattle.std.specs.Prelude.{◌≡◌, ◌+◌, ◌-◌, ◌*◌, ◌/◌, ◌%◌, ◌<◌, ◌≤◌, ◌++◌, pos, length, take, drop, replicate, min, IfOk, OnOk, OnErr, All};
ghost use Rattle.sound_model.specs.Wav.{sound};
ghost use Rattle.ses_io.specs.Outside.{OnlyReads, ReadCause};
ghost use Rattle.ses_io.specs.Files.{content};
ghost use Rattle.wav_codec.specs.Info.{head_of, IsFound};
ghost use Rattle.wav_codec.specs.Samples.{samples_of};
ghost use Rattle.session_model.specs.Frames.{interleaved, IsSample};
ghost use Rattle.audio_source.specs.Spans.{IsPieceAt};

use crate::entry::Entry;
use ses_io::{Failed, Media, read_at_full};
use wav_codec::{WavInfo, decode};

/// Fills `out` with 0.
pub(crate) fn silence(out: &mut [i32])
    ensures { out.new ≡ replicate (length out.old) (pos 0) }
{
    for v in out.iter_mut() {
        *v = 0;
    }
}

// The samples of these bytes, and 0 behind them.
fn deliver(info: &WavInfo, bytes: &[u8], out: &mut [i32])
    requires found { IsFound info.now }
    requires whole { length bytes.now % (info.now.bits / 8) ≡ 0 }
    requires room { length bytes.now / (info.now.bits / 8) ≤ length out.old }
    ensures samples { out.new ≡ samples_of info.now.bits (length bytes.now / (info.now.bits / 8))
        bytes.now
        ++ replicate (length out.old - length bytes.now / (info.now.bits / 8)) (pos 0) }
    ensures range { All IsSample out.new }
{
    let samples = bytes.len() / (info.bits / 8) as usize;
    decode(info, bytes, &mut out[..samples]);
    silence(&mut out[samples..]);
}

// Reads so many frames from one on, as far as the file goes, and answers how many bytes whole frames of them are.
fn fetch<M: Media>(
    media: &mut M,
    name: &str,
    info: &WavInfo,
    from: u64,
    buf: &mut [u8],
) -> Result<usize, Failed>
    requires found { IsFound info.now }
    requires inside { from ≤ info.now.frames }
    requires small { length buf.old < 4294967296 }
    requires whole { length buf.old % (info.now.channels * (info.now.bits / 8)) ≡ 0 }
    ensures bound { IfOk result (λ n. n ≤ length buf.new) }
    ensures whole { IfOk result (λ n. n % (info.now.channels * (info.now.bits / 8)) ≡ 0) }
    ensures told { M.outside.tells → IfOk result
        (IsPieceAt (head_of info.now) (content (M.outside.files media.old) name.now) from buf.new) }
    ensures only_reads { OnlyReads M.outside media.old media.new }
    ensures cause { ReadCause M.outside media.old media.new result }
{
    let align = info.channels as usize * (info.bits / 8) as usize;
    let at = info.data_at + from * align as u64;
    let filled = read_at_full(media, name, at, buf)?;
    Ok(filled / align * align)
}

/// Fills `out`, which holds up to 4,096 whole frames, with frames of a source from one on.
pub(crate) fn span<M: Media>(
    media: &mut M,
    entry: &Entry,
    from: u64,
    buf: &mut [u8],
    out: &mut [i32],
) -> Result<(), Failed>
    requires found { IsFound entry.now.info }
    requires inside { from ≤ entry.now.info.frames }
    requires whole { length out.old % entry.now.info.channels ≡ 0 }
    requires room { length out.old * 3 ≤ length buf.old }
    requires few { length out.old ≤ 4096 * 8 }
    ensures told { M.outside.tells → OnOk result (out.new ≡ interleaved
        (sound (head_of entry.now.info) (content (M.outside.files media.old) entry.now.file))
        entry.now.info.channels from (length out.old)) }
    ensures range { OnOk result (All IsSample out.new) }
    ensures kept { OnErr result (out.new ≡ out.old) }
    ensures only_reads { OnlyReads M.outside media.old media.new }
    ensures cause { ReadCause M.outside media.old media.new result }
{
    let info = &entry.info;
    let channels = info.channels as usize;
    let frames = (info.frames - from).min((out.len() / channels) as u64) as usize;
    let bytes = frames * channels * (info.bits / 8) as usize;
    let read = fetch(media, entry.file.as_str(), info, from, &mut buf[..bytes])?;
    deliver(info, &buf[..read], out);
    Ok(())
}
