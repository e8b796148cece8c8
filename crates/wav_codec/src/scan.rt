//! The head of a file, asked for piece by piece: 12 bytes, then 8 of each chunk and 16 of `fmt `,
//! and 16 and 8 more of an extensible one.

ghost use Rattle.std.specs.Prelude.{◌≡◌, ℕ, ◌^◌, ◌<◌, ◌≤◌, List};
ghost use Rattle.wav_codec.specs.Info.{IsFound};

use crate::fields::{Fields, Format};
use crate::info::WavInfo;
use crate::refusal::WavRefusal;
use std::marker::Model;

mod chunk;
mod extension;
mod format;
mod start;

use chunk::given_chunk;
use extension::{given_extension, given_subformat};
use format::{given_format, given_format_end};
use start::given_start;

/// The bytes that a scan asks for.
#[derive(Clone, Copy, Debug, PartialEq, Eq)]
pub struct Want {
    /// The place of the first of them in the file.
    pub at: u64,
    /// How many: 1 to 16.
    pub length: u32,
}

/// What a scan knows after a piece.
#[derive(Drop)]
pub enum Step {
    /// A further piece is wanted.
    More(Scan),
    /// The head is read.
    Done(WavInfo),
}

/// A scan of the head of a file that is never held whole.
#[derive(Drop)]
pub struct Scan {
    size: Option<u64>,
    stage: Stage,
}

#[derive(Clone, Copy)]
enum Stage {
    // The first 12 bytes.
    Riff,
    // The name and the size of the chunk at a place, with the form found so far.
    Chunk {
        riff_size: u32,
        at: u64,
        form: Option<Format>,
    },
    // The fields of the first `fmt ` chunk, which stands at a place.
    Format {
        riff_size: u32,
        at: u64,
        chunk_size: u32,
    },
    // The size of its extension and half of the subformat.
    Extension {
        riff_size: u32,
        at: u64,
        chunk_size: u32,
        fields: Fields,
    },
    // The other half of the subformat.
    Subformat {
        riff_size: u32,
        at: u64,
        chunk_size: u32,
        fields: Fields,
    },
    // The last byte of that chunk, of a stream.
    FormatEnd {
        riff_size: u32,
        at: u64,
        chunk_size: u32,
        fields: Fields,
    },
}

impl Model for Scan {
    ghost use Rattle.wav_codec.specs.Progress.{Progress, IsInRange};

    ghost Value = { Progress };

    ghost view = { λ s. record { size = s.size; stage = s.stage } };

    ghost invariant = { λ s. IsInRange s.stage };
}

impl Scan {
    ghost use Rattle.wav_codec.specs.Progress.{HasSize, Agrees, wanted, wanted_at, wanted_long, wanted_end, told};
    ghost use Rattle.wav_codec.specs.Step.{IfMore, IfDone, AnswersFor};

    /// A scan of a file whose size in bytes is told, or of a stream. It begins at byte 0.
    pub fn new(size: Option<u64>) -> Scan
        ensures size { result.size ≡ size }
        ensures agrees { (b : List ℕ) → HasSize size b → Agrees result b }
    {
        Scan {
            size,
            stage: Stage::Riff,
        }
    }

    /// The bytes that `give` takes next.
    pub fn want(&self) -> Want
        ensures at { result.at ≡ wanted_at self.now }
        ensures length { result.length ≡ wanted_long self.now }
        ensures some { 1 ≤ result.length }
        ensures few { result.length ≤ 16 }
        ensures bound { result.at < 2 ^ 33 }
    {
        match self.stage {
            Stage::Riff => Want { at: 0, length: 12 },
            Stage::Chunk { at, .. } => Want { at, length: 8 },
            Stage::Format { at, .. } => Want {
                at: at + 8,
                length: 16,
            },
            Stage::Extension { at, .. } => Want {
                at: at + 24,
                length: 16,
            },
            Stage::Subformat { at, .. } => Want {
                at: at + 40,
                length: 8,
            },
            Stage::FormatEnd { at, chunk_size, .. } => Want {
                at: at + 7 + u64::from(chunk_size),
                length: 1,
            },
        }
    }

    /// Takes the bytes that are wanted, fewer only where the file ends. A refusal is the first
    /// thing wrong on the walk over the chunks (RIFF WAVE; the limits of what is read are own).
    pub fn give(self, bytes: &[u8]) -> Result<Step, WavRefusal>
        // The size that was told stays, and what is wanted next stands after what was wanted.
        ensures size { IfMore result (λ next. next.size ≡ self.size) }
        ensures rises { IfMore result (λ next. wanted_end self ≤ wanted_at next) }

        // The sound begins right after what was wanted.
        ensures reached { IfDone result (λ info. info.data_at ≡ wanted_end self) }
        ensures found { IfDone result IsFound }

        // The answer is right for each file that the scan agrees with and that has these bytes.
        ensures answer { (b : List ℕ) → Agrees self b → bytes.now ≡ wanted self b
            → AnswersFor (told self) b result }
    {
        let Scan { size, stage } = self;
        match stage {
            Stage::Riff => given_start(size, bytes),
            Stage::Chunk {
                riff_size,
                at,
                form,
            } => given_chunk(size, riff_size, at, form, bytes),
            Stage::Format {
                riff_size,
                at,
                chunk_size,
            } => given_format(size, riff_size, at, chunk_size, bytes),
            Stage::Extension {
                riff_size,
                at,
                chunk_size,
                fields,
            } => given_extension(size, riff_size, at, chunk_size, fields, bytes),
            Stage::Subformat {
                riff_size,
                at,
                chunk_size,
                fields,
            } => given_subformat(size, riff_size, at, chunk_size, fields, bytes),
            Stage::FormatEnd {
                riff_size,
                at,
                chunk_size,
                fields,
            } => given_format_end(size, riff_size, at, chunk_size, fields, bytes),
        }
    }
}
