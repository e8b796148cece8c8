//! The first `fmt ` chunk: its fields, and whether all of its bytes are there.

ghost use Rattle.std.specs.Prelude.{◌≡◌, ◌<◌, ◌≤◌, ◌+◌, ◌%◌, ℕ, List, length, is_some};
ghost use Rattle.sound_model.specs.Wav.{last_place};
ghost use Rattle.wav_codec.specs.Progress.{scan_of, Agrees, wanted_at};
ghost use Rattle.wav_codec.specs.Step.{IfMore, IfDone, GoesOn, StepAnswers, AnswersFor};

use crate::fields::{EXTENSIBLE_SIZE, Fields};
use crate::refusal::WavRefusal;
use crate::scan::chunk::{after, look_at};
use crate::scan::{Scan, Stage, Step};

// Takes the first 16 bytes of the `fmt ` chunk at a place.
pub(super) fn given_format(
    size: Option<u64>,
    riff_size: u32,
    at: u64,
    chunk_size: u32,
    bytes: &[u8],
) -> Result<Step, WavRefusal>
    requires place { at ≤ last_place }
    requires fields { 16 ≤ chunk_size }
    ensures goes_on { GoesOn (scan_of size (Stage.Format riff_size at chunk_size)) result }
    ensures answer { StepAnswers (scan_of size (Stage.Format riff_size at chunk_size))
        bytes.now result }
{
    let Some(fields) = Fields::from_bytes(bytes) else {
        return Err(WavRefusal::FormatShort(chunk_size));
    };
    if !fields.is_extensible() {
        return fields_given(size, riff_size, at, chunk_size, 16, fields);
    }
    if chunk_size < EXTENSIBLE_SIZE {
        return Err(WavRefusal::FormatShort(chunk_size));
    }
    let stage = Stage::Extension {
        riff_size,
        at,
        chunk_size,
        fields,
    };
    Ok(Step::More(Scan { size, stage }))
}

// Goes on where so many bytes of the `fmt ` chunk were given, which are all that is judged of it.
pub(super) fn fields_given(
    size: Option<u64>,
    riff_size: u32,
    at: u64,
    chunk_size: u32,
    given: u32,
    fields: Fields,
) -> Result<Step, WavRefusal>
    requires place { at ≤ last_place }
    requires some { 16 ≤ given }
    requires all { given ≤ chunk_size }
    ensures size { IfMore result (λ next. next.size ≡ size) }
    ensures next { IfMore result (λ next. at + 8 + given ≤ wanted_at next) }
    ensures never { IfDone result (λ info. ⊥) }
    ensures answer { (b : List ℕ)
        → Agrees (scan_of size (Stage.FormatEnd riff_size at chunk_size fields)) b
        → at + 8 + given ≤ length b → AnswersFor (is_some size) b result }
{
    match size {
        Some(told) => {
            if told < at + 8 + u64::from(chunk_size) {
                return Err(WavRefusal::FormatShort(chunk_size));
            }
            after_format(size, riff_size, at, chunk_size, fields)
        }
        None => {
            if chunk_size == given {
                return after_format(size, riff_size, at, chunk_size, fields);
            }
            let stage = Stage::FormatEnd {
                riff_size,
                at,
                chunk_size,
                fields,
            };
            Ok(Step::More(Scan { size, stage }))
        }
    }
}

// Takes the last byte of a longer `fmt ` chunk of a stream.
pub(super) fn given_format_end(
    size: Option<u64>,
    riff_size: u32,
    at: u64,
    chunk_size: u32,
    fields: Fields,
    bytes: &[u8],
) -> Result<Step, WavRefusal>
    requires place { at ≤ last_place }
    requires fields { 16 < chunk_size }
    ensures goes_on { GoesOn (scan_of size (Stage.FormatEnd riff_size at chunk_size fields))
        result }
    ensures answer { StepAnswers (scan_of size (Stage.FormatEnd riff_size at chunk_size fields))
        bytes.now result }
{
    if bytes.is_empty() {
        return Err(WavRefusal::FormatShort(chunk_size));
    }
    after_format(size, riff_size, at, chunk_size, fields)
}

// Goes on after the `fmt ` chunk, all of whose bytes are there.
fn after_format(
    size: Option<u64>,
    riff_size: u32,
    at: u64,
    chunk_size: u32,
    fields: Fields,
) -> Result<Step, WavRefusal>
    requires { at ≤ last_place }
    ensures size { IfMore result (λ next. next.size ≡ size) }
    ensures next { IfMore result (λ next. wanted_at next ≡ at + 8 + chunk_size + chunk_size % 2) }
    ensures never { IfDone result (λ info. ⊥) }
    ensures answer { (b : List ℕ)
        → Agrees (scan_of size (Stage.FormatEnd riff_size at chunk_size fields)) b
        → at + 8 + chunk_size ≤ length b → AnswersFor (is_some size) b result }
{
    let form = fields.form()?;
    look_at(size, riff_size, after(at, chunk_size), Some(form))
}
