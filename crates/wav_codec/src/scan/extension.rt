//! The extension of the first `fmt ` chunk, where its tag leaves the kind of sound to a subformat.

ghost use Rattle.std.specs.Prelude.{◌≤◌};
ghost use Rattle.sound_model.specs.Wav.{last_place};
ghost use Rattle.wav_codec.specs.Progress.{scan_of};
ghost use Rattle.wav_codec.specs.Step.{GoesOn, StepAnswers};

use crate::fields::{EXTENSIBLE_SIZE, Fields};
use crate::refusal::WavRefusal;
use crate::scan::format::fields_given;
use crate::scan::{Scan, Stage, Step};

// Takes bytes 16 to 31 of the `fmt ` chunk at a place.
pub(super) fn given_extension(
    size: Option<u64>,
    riff_size: u32,
    at: u64,
    chunk_size: u32,
    fields: Fields,
    bytes: &[u8],
) -> Result<Step, WavRefusal>
    requires place { at ≤ last_place }
    requires fields { 40 ≤ chunk_size }
    ensures goes_on { GoesOn (scan_of size (Stage.Extension riff_size at chunk_size fields))
        result }
    ensures answer { StepAnswers (scan_of size (Stage.Extension riff_size at chunk_size fields))
        bytes.now result }
{
    if bytes.len() < 16 {
        return Err(WavRefusal::FormatShort(chunk_size));
    }
    let fields = fields.with_extension(bytes);
    let stage = Stage::Subformat {
        riff_size,
        at,
        chunk_size,
        fields,
    };
    Ok(Step::More(Scan { size, stage }))
}

// Takes bytes 32 to 39 of the `fmt ` chunk at a place.
pub(super) fn given_subformat(
    size: Option<u64>,
    riff_size: u32,
    at: u64,
    chunk_size: u32,
    fields: Fields,
    bytes: &[u8],
) -> Result<Step, WavRefusal>
    requires place { at ≤ last_place }
    requires fields { 40 ≤ chunk_size }
    ensures goes_on { GoesOn (scan_of size (Stage.Subformat riff_size at chunk_size fields))
        result }
    ensures answer { StepAnswers (scan_of size (Stage.Subformat riff_size at chunk_size fields))
        bytes.now result }
{
    if bytes.len() < 8 {
        return Err(WavRefusal::FormatShort(chunk_size));
    }
    let fields = fields.with_subformat(bytes);
    fields_given(size, riff_size, at, chunk_size, EXTENSIBLE_SIZE, fields)
}
