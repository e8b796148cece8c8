//! Any number of frames of a source, by spans of up to 4,096.
ghost use Rattle.std.specs.Prelude.{◌≡◌, ◌%◌, ◌<◌, length, slice_index, OnOk, All};
ghost use Rattle.ses_io.specs.Outside.{OnlyReads, ReadCause};
ghost use Rattle.session_model.specs.Frames.{interleaved, IsSample};
ghost use Rattle.audio_source.specs.Opened.{channels_of};
ghost use Rattle.audio_source.specs.Told.{source_sound};
ghost use Rattle.audio_source.specs.Lines.{HoldsAsRead};

use crate::refusal::ReadFault;
use crate::sources::Sources;
use ses_io::Media;

/// Fills `out`, which holds whole frames, with frames of a source from one on, and with 0 past its end.
pub(crate) fn frames_by_spans<M: Media>(
    sources: &mut Sources,
    media: &mut M,
    source: u32,
    from: u64,
    out: &mut [i32],
) -> Result<(), ReadFault>
    requires source { source < length sources.old.opened }
    requires whole { length out.old % slice_index (channels_of sources.old.opened) source ≡ 0 }
    ensures told { M.outside.tells → HoldsAsRead (M.outside.files media.old) sources.old
        → OnOk result (out.new ≡ interleaved
        (source_sound (M.outside.files media.old) sources.old.opened source)
        (slice_index (channels_of sources.old.opened) source) from (length out.old)) }
    ensures holds { M.outside.tells → HoldsAsRead (M.outside.files media.old) sources.old
        → HoldsAsRead (M.outside.files media.old) sources.new }
    ensures range { OnOk result (All IsSample out.new) }
    ensures opened { sources.new.opened ≡ sources.old.opened }
    ensures only_reads { OnlyReads M.outside media.old media.new }
    ensures cause { ReadCause M.outside media.old media.new result }
{
    let channels = sources.width(source) as usize;
    let mut done = 0;
    for _turn in 0..out.len() {
        if done == out.len() {
            break;
        }
        let end = out.len().min(done + 4096 * channels);
        let first = from.saturating_add((done / channels) as u64);
        sources.frames(media, source, first, &mut out[done..end])?;
        done = end;
    }
    Ok(())
}
