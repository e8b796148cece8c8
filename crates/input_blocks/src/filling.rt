//! A block of frames out of the bytes of a source, and 0 past their end.
ghost use Rattle.std.specs.Prelude.{◌≡◌, ℕ, ◌+◌, ◌-◌, ◌*◌, ◌/◌, ◌%◌, ◌<◌, ◌≤◌, ◌++◌, pos, List, length, take, drop, replicate, min, IfOk, OnOk, OnErr, All};
ghost use Rattle.sound_model.specs.Wav.{align};
ghost use Rattle.ses_io.specs.Faults.{HasCause};
ghost use Rattle.wav_codec.specs.Info.{form_read, IsFound};
ghost use Rattle.wav_codec.specs.Samples.{samples_of};
ghost use Rattle.session_model.specs.Frames.{interleaved, IsSample};
ghost use Rattle.input_blocks.specs.Rest.{stream_of, rest_sound};
ghost use Rattle.input_blocks.specs.State.{LosesFewer};
ghost use Rattle.input_blocks.specs.Front.{IsFront, HasRoom};

use ses_io::{Failed, Source, read_full};
use wav_codec::{WavInfo, decode};

// The samples of these bytes, and 0 behind them.
fn deliver(info: &WavInfo, bytes: &[u8], out: &mut [i32])
    requires found { IsFound info.now }
    requires whole { length bytes.now % (info.now.bits / 8) ≡ 0 }
    requires room { length bytes.now / (info.now.bits / 8) ≤ length out.old }
    ensures samples { out.new ≡ samples_of info.now.bits (length bytes.now / (info.now.bits / 8))
        bytes.now
        ++ replicate (length out.old - length bytes.now / (info.now.bits / 8)) (pos 0) }
    ensures range { All IsSample out.new }
{
    let samples = bytes.len() / (info.bits / 8) as usize;
    decode(info, bytes, &mut out[..samples]);
    out[samples..].fill(0);
}

// Fills the buffer as far as the source goes, and answers how many bytes whole frames of them are.
fn fetch<I: Source>(input: &mut I, info: &WavInfo, buf: &mut [u8]) -> Result<usize, Failed>
    requires found { IsFound info.now }
    requires whole { length buf.old % align (form_read info.now) ≡ 0 }
    ensures bound { IfOk result (λ n. n ≤ length buf.new) }
    ensures whole { IfOk result (λ n. n % align (form_read info.now) ≡ 0) }
    ensures front { I.outside.tells → IfOk result
        (IsFront (align (form_read info.now)) (I.outside.left input.old) buf.new) }
    ensures rest { I.outside.tells → OnOk result
        (I.outside.left input.new ≡ drop (length buf.old) (I.outside.left input.old)) }
    ensures lost { I.outside.tells → OnErr result
        (LosesFewer (length buf.old) (I.outside.left input.old) (I.outside.left input.new)) }
    ensures asked { OnErr result (0 < length buf.old) }
    ensures none { length buf.old ≡ 0 → input.new ≡ input.old }
    ensures cause { HasCause (I.outside.faults input.old) (I.outside.faults input.new) result }
{
    let align = info.channels as usize * (info.bits / 8) as usize;
    let filled = read_full(input, buf)?;
    Ok(filled / align * align)
}

/// Fills `out`, which holds up to 4,096 whole frames, with the frames of the data from one on, and with 0 past their end.
/// Answers how many frames it asked of the source.
pub(crate) fn fill<I: Source>(
    input: &mut I,
    info: &WavInfo,
    from: u64,
    buf: &mut [u8],
    out: &mut [i32],
) -> Result<u64, Failed>
    ghost start: { List ℕ }
    requires room { HasRoom info.now from (length buf.old) (length out.old) }
    requires place { I.outside.tells
        → I.outside.left input.old ≡ drop (from * align (form_read info.now)) start }
    ensures frames { IfOk result
        (λ n. n ≡ min (info.now.frames - from) (length out.old / info.now.channels)) }
    ensures place { I.outside.tells → IfOk result
        (λ n. I.outside.left input.new ≡ drop ((from + n) * align (form_read info.now)) start) }
    ensures samples { I.outside.tells → OnOk result (out.new ≡ interleaved
        (rest_sound (stream_of info.now) start) info.now.channels from (length out.old)) }
    ensures range { OnOk result (All IsSample out.new) }
    ensures kept { OnErr result (out.new ≡ out.old) }
    ensures lost { I.outside.tells → OnErr result (LosesFewer
        (min (info.now.frames - from) (length out.old / info.now.channels)
        * align (form_read info.now))
        (I.outside.left input.old) (I.outside.left input.new)) }
    ensures asked { OnErr result
        (0 < min (info.now.frames - from) (length out.old / info.now.channels)
        * align (form_read info.now)) }
    ensures none { from ≡ info.now.frames → input.new ≡ input.old }
    ensures cause { HasCause (I.outside.faults input.old) (I.outside.faults input.new) result }
{
    let channels = info.channels as usize;
    let frames = (info.frames - from).min((out.len() / channels) as u64);
    let bytes = frames as usize * channels * (info.bits / 8) as usize;
    let read = fetch(input, info, &mut buf[..bytes])?;
    deliver(info, &buf[..read], out);
    Ok(frames)
}
