//! A chunk on the walk: its name, its size, and where the next one would stand.

ghost use Rattle.std.specs.Prelude.{◌≡◌, ◌≤◌, ◌+◌, ◌%◌, ℕ, List, length, is_some};
ghost use Rattle.sound_model.specs.Wav.{last_place, size_at, head, head_at};
ghost use Rattle.wav_codec.specs.Info.{IsFound};
ghost use Rattle.wav_codec.specs.Kind.{IsKind};
ghost use Rattle.wav_codec.specs.Progress.{scan_of, Agrees, HasSize};
ghost use Rattle.wav_codec.specs.Step.{IfMore, IfDone, GoesOn, StepAnswers, AnswersFor};

use crate::fields::Format;
use crate::info::WavInfo;
use crate::refusal::WavRefusal;
use crate::scan::start::{begins, size_field};
use crate::scan::{Scan, Stage, Step};

// No chunk is looked for past this place.
const LAST_PLACE: u64 = 16_777_216;

// Asks for the chunk at a place, where one may stand.
pub(super) fn look_at(
    size: Option<u64>,
    riff_size: u32,
    at: u64,
    form: Option<Format>,
) -> Result<Step, WavRefusal>
    ensures next { IfMore result (λ next. next ≡ scan_of size (Stage.Chunk riff_size at form)) }
    ensures never { IfDone result (λ info. ⊥) }
    ensures answer { (b : List ℕ) → Agrees (scan_of size (Stage.Chunk riff_size at form)) b
        → AnswersFor (is_some size) b result }
{
    if LAST_PLACE < at {
        return Err(WavRefusal::HeadTooLong(at));
    }
    if u64::from(riff_size) < at {
        return Err(WavRefusal::NoData);
    }
    let stage = Stage::Chunk {
        riff_size,
        at,
        form,
    };
    Ok(Step::More(Scan { size, stage }))
}

// Takes the 8 bytes before the chunk at a place.
pub(super) fn given_chunk(
    size: Option<u64>,
    riff_size: u32,
    at: u64,
    form: Option<Format>,
    bytes: &[u8],
) -> Result<Step, WavRefusal>
    requires place { at ≤ last_place }
    requires inside { at ≤ riff_size }
    ensures goes_on { GoesOn (scan_of size (Stage.Chunk riff_size at form)) result }
    ensures answer { StepAnswers (scan_of size (Stage.Chunk riff_size at form)) bytes.now result }
{
    if bytes.len() < 8 {
        return Err(WavRefusal::NoData);
    }
    let chunk_size = size_field(bytes);
    match kind_of(&form, bytes) {
        Kind::Sound => sound_at(size, at, chunk_size, form),
        Kind::FirstFormat => {
            if chunk_size < 16 {
                return Err(WavRefusal::FormatShort(chunk_size));
            }
            let stage = Stage::Format {
                riff_size,
                at,
                chunk_size,
            };
            Ok(Step::More(Scan { size, stage }))
        }
        Kind::Skipped => look_at(size, riff_size, after(at, chunk_size), form),
    }
}

enum Kind {
    Sound,
    FirstFormat,
    Skipped,
}

// What the chunk is that begins with these bytes, with the form found so far.
fn kind_of(form: &Option<Format>, bytes: &[u8]) -> Kind
    requires { 4 ≤ length bytes.now }
    ensures { IsKind result form.now bytes.now }
{
    if begins(bytes, b"data") {
        return Kind::Sound;
    }
    if form.is_none() && begins(bytes, b"fmt ") {
        return Kind::FirstFormat;
    }
    Kind::Skipped
}

// The place after the chunk at a place, and after its pad byte.
pub(super) fn after(at: u64, chunk_size: u32) -> u64
    requires { at ≤ last_place }
    ensures { result ≡ at + 8 + chunk_size + chunk_size % 2 }
{
    at + 8 + u64::from(chunk_size) + u64::from(chunk_size % 2)
}

// The head, where `data` stands at a place.
fn sound_at(
    size: Option<u64>,
    at: u64,
    chunk_size: u32,
    form: Option<Format>,
) -> Result<Step, WavRefusal>
    requires { at ≤ last_place }
    ensures never { IfMore result (λ next. ⊥) }
    ensures found { IfDone result (λ info. (info.data_at ≡ at + 8) × IsFound info) }
    ensures answer { (b : List ℕ) → HasSize size b → chunk_size ≡ size_at b at
        → head (is_some size) b ≡ head_at (is_some size) b at form
        → AnswersFor (is_some size) b result }
{
    let Some(form) = form else {
        return Err(WavRefusal::NoFormat);
    };
    let data_at = at + 8;
    let want = u64::from(chunk_size);
    if let Some(size) = size {
        if size < data_at + want {
            let have = size.saturating_sub(data_at);
            return Err(WavRefusal::Truncated { want, have });
        }
    }
    let align = form.channels * (form.bits / 8);
    Ok(Step::Done(WavInfo {
        channels: form.channels,
        rate: form.rate,
        bits: form.bits,
        data_at,
        frames: want / u64::from(align),
    }))
}
