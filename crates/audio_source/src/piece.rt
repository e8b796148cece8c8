//! Samples that lie in one line of a source: out of the held line, which is read where it isn't held.
ghost use Rattle.std.specs.Prelude.{◌≡◌, ℕ, ◌+◌, ◌*◌, ◌/◌, ◌%◌, ◌^◌, ◌<◌, ◌≤◌, ℤ, List, ◌∷◌, [], length, take, IfSome, OnOk, OnErr, All, None};
ghost use Rattle.std.specs.Map.{keys_of, lookup};
ghost use Rattle.sound_model.specs.Wav.{sound};
ghost use Rattle.ses_io.specs.Files.{content};
ghost use Rattle.ses_io.specs.Outside.{OnlyReads, ReadCause};
ghost use Rattle.wav_codec.specs.Info.{head_of};
ghost use Rattle.session_model.specs.Frames.{interleaved, IsSample};
ghost use Rattle.audio_source.specs.Opened.{IsReadable};
ghost use Rattle.audio_source.specs.Lines.{same_line, after_asking, asked_line};
ghost use Rattle.audio_source.specs.Slots.{IsMissed, IsLineOf, StaysHeld};

use crate::entry::Entry;
use crate::line::LineName;
use crate::lines::Lines;
use crate::span::silence;
use ses_io::{Failed, Media};

/// Fills `out` with samples of a source that lie in one line, from the sample `skip` of it on, and with 0 past the end.
pub(crate) fn piece<M: Media>(
    media: &mut M,
    lines: &mut Lines,
    entry: &Entry,
    buf: &mut [u8],
    name: LineName,
    skip: usize,
    out: &mut [i32],
) -> Result<(), Failed>
    requires readable { IsReadable (length buf.old) entry.now }
    requires room { 4096 * entry.now.info.channels ≤ lines.old.room }
    requires within { skip + length out.old ≤ 4096 * entry.now.info.channels }
    requires whole { skip % entry.now.info.channels ≡ 0 }
    ensures told { M.outside.tells → IfSome (lookup (same_line name) lines.old.held)
        (IsLineOf (M.outside.files media.old) entry.now name.line)
        → OnOk result (out.new ≡ interleaved
        (sound (head_of entry.now.info) (content (M.outside.files media.old) entry.now.file))
        entry.now.info.channels (4096 * name.line + skip / entry.now.info.channels)
        (length out.old)) }
    ensures range { OnOk result (All IsSample out.new) }
    ensures lines { OnOk result (keys_of lines.new.held ≡ after_asking
        (asked_line name.source entry.now.info.frames name.line (length out.old))
        (keys_of lines.old.held)) }
    ensures holds { StaysHeld name (λ samples. M.outside.tells
        → IsLineOf (M.outside.files media.old) entry.now name.line samples)
        lines.old.held lines.new.held }
    ensures room { lines.new.room ≡ lines.old.room }
    ensures fault { OnErr result (IsMissed name entry.now.info.frames (length out.old)
        lines.old.held lines.new.held) }
    ensures only_reads { OnlyReads M.outside media.old media.new }
    ensures cause { ReadCause M.outside media.old media.new result }
{
    if out.is_empty() {
        return Ok(());
    }
    if name.line >= (entry.info.frames + 4095) / 4096 {
        silence(out);
        return Ok(());
    }
    if lines.show(name, skip, out) {
        return Ok(());
    }
    match lines.read(media, entry, name, buf) {
        Ok(()) => {
            lines.show(name, skip, out);
            Ok(())
        }
        Err(failed) => Err(failed),
    }
}
