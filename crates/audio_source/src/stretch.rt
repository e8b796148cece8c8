//! Up to 4,096 frames of a source, out of the one or two lines that they lie in.
ghost use Rattle.std.specs.Prelude.{◌≡◌, ◌*◌, ◌%◌, ◌≤◌, length, OnOk, OnErr, All};
ghost use Rattle.std.specs.Map.{keys_of};
ghost use Rattle.sound_model.specs.Wav.{sound};
ghost use Rattle.ses_io.specs.Outside.{OnlyReads, ReadCause};
ghost use Rattle.ses_io.specs.Files.{content};
ghost use Rattle.wav_codec.specs.Info.{head_of};
ghost use Rattle.session_model.specs.Frames.{interleaved, IsSample};
ghost use Rattle.audio_source.specs.Opened.{IsReadable};
ghost use Rattle.audio_source.specs.Lines.{after_asking, asked_of, IsFaultAt};
ghost use Rattle.audio_source.specs.Slots.{AreLinesOf, IsLineOf, StayHeld};

use crate::entry::Entry;
use crate::line::LineName;
use crate::lines::Lines;
use crate::piece::piece;
use ses_io::{Failed, Media};

/// Fills `out`, which holds whole frames, with frames of a source from one on, and with 0 past its end.
pub(crate) fn frames_by_lines<M: Media>(
    media: &mut M,
    lines: &mut Lines,
    entry: &Entry,
    buf: &mut [u8],
    source: u32,
    from: u64,
    out: &mut [i32],
) -> Result<(), Failed>
    requires readable { IsReadable (length buf.old) entry.now }
    requires room { 4096 * entry.now.info.channels ≤ lines.old.room }
    requires whole { length out.old % entry.now.info.channels ≡ 0 }
    requires few { length out.old ≤ 4096 * entry.now.info.channels }
    ensures told { M.outside.tells
        → AreLinesOf source (IsLineOf (M.outside.files media.old) entry.now) lines.old.held
        → OnOk result (out.new ≡ interleaved
        (sound (head_of entry.now.info) (content (M.outside.files media.old) entry.now.file))
        entry.now.info.channels from (length out.old)) }
    ensures range { OnOk result (All IsSample out.new) }
    ensures lines { OnOk result (keys_of lines.new.held ≡ after_asking
        (asked_of source entry.now.info.channels entry.now.info.frames from (length out.old))
        (keys_of lines.old.held)) }
    ensures holds { StayHeld source (λ line samples. M.outside.tells
        → IsLineOf (M.outside.files media.old) entry.now line samples)
        lines.old.held lines.new.held }
    ensures room { lines.new.room ≡ lines.old.room }
    ensures fault { OnErr result (IsFaultAt
        (asked_of source entry.now.info.channels entry.now.info.frames from (length out.old))
        (keys_of lines.old.held) (keys_of lines.new.held)) }
    ensures only_reads { OnlyReads M.outside media.old media.new }
    ensures cause { ReadCause M.outside media.old media.new result }
{
    let channels = entry.info.channels as usize;
    let skip = (from % 4096) as usize * channels;
    let split = out.len().min(4096 * channels - skip);
    let line = from / 4096;
    let first = LineName { source, line };
    let second = LineName {
        source,
        line: line + 1,
    };
    let (front, back) = out.split_at_mut(split);
    match piece(media, lines, entry, buf, first, skip, front) {
        Ok(()) => match piece(media, lines, entry, buf, second, 0, back) {
            Ok(()) => Ok(()),
            Err(failed) => Err(failed),
        },
        Err(failed) => Err(failed),
    }
}
