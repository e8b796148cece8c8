//! The first 12 bytes of a file: `RIFF`, a size, and `WAVE`.

ghost use Rattle.std.specs.Prelude.{◌≡◌, ◌≤◌, length, take, drop, bytes_eq};
ghost use Rattle.sound_model.specs.Numbers.{number};
ghost use Rattle.wav_codec.specs.Progress.{scan_of};
ghost use Rattle.wav_codec.specs.Step.{GoesOn, StepAnswers};

use crate::refusal::WavRefusal;
use crate::scan::chunk::look_at;
use crate::scan::{Stage, Step};

// Takes the first 12 bytes.
#[tactic(auto, unfolding(sound_model::specs::Wav::head))]
pub(super) fn given_start(size: Option<u64>, bytes: &[u8]) -> Result<Step, WavRefusal>
    ensures goes_on { GoesOn (scan_of size Stage.Riff) result }
    ensures answer { StepAnswers (scan_of size Stage.Riff) bytes.now result }
{
    if bytes.len() < 12 || !begins(bytes, b"RIFF") {
        return Err(WavRefusal::NotRiff);
    }
    if !begins(&bytes[8..], b"WAVE") {
        return Err(WavRefusal::NotWave);
    }
    look_at(size, size_field(bytes), 12, None)
}

// Whether the first four bytes are this word.
pub(super) fn begins(bytes: &[u8], word: &[u8]) -> bool
    requires { 4 ≤ length bytes.now }
    ensures { result ≡ bytes_eq (take 4 bytes.now) word.now }
{
    &bytes[..4] == word
}

// The number at byte 4, which is the size of the chunk that begins here.
pub(super) fn size_field(bytes: &[u8]) -> u32
    requires { 8 ≤ length bytes.now }
    ensures { result ≡ number 4 (drop 4 bytes.now) }
{
    u32::from_le_bytes([bytes[4], bytes[5], bytes[6], bytes[7]])
}
