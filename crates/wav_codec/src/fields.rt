//! The fields of a `fmt ` chunk: tag at byte 0, channels at 2, rate at 4, align at 12, bits at 14;
//! of an extensible one the size of its extension at 16, and its subformat at 24.

ghost use Rattle.std.specs.Prelude.{◌≡◌, ◌≢◌, ◌≤◌, ◌==◌, ◌&&◌, length, drop, bytes_eq, MatchOption};
ghost use Rattle.sound_model.specs.Wav.{extensible, pcm_subformat};
ghost use Rattle.wav_codec.specs.Fields.{fields_at, form_given, begins_pcm_extension, with_pcm};
ghost use Rattle.wav_codec.specs.Refusal.{Gives};

use crate::refusal::WavRefusal;
use std::marker::Model;

// The tag of PCM, and the one that leaves the kind of sound to a subformat.
const PCM: u16 = 1;

const EXTENSIBLE: u16 = 0xfffe;

/// The bytes that an extensible chunk has at least.
pub(crate) const EXTENSIBLE_SIZE: u32 = 40;

// The subformat that is PCM.
const PCM_SUBFORMAT: [u8; 16] = [
    0x01, 0x00, 0x00, 0x00, 0x00, 0x00, 0x10, 0x00, 0x80, 0x00, 0x00, 0xaa, 0x00, 0x38, 0x9b, 0x71,
];

/// The five fields that are judged. The bytes per second aren't.
#[derive(Clone, Copy)]
pub(crate) struct Fields {
    pub(crate) tag: u16,
    /// Whether what was given tells PCM: the tag, or the extension so far.
    pub(crate) pcm: bool,
    pub(crate) channels: u16,
    pub(crate) rate: u32,
    pub(crate) block: u16,
    pub(crate) bits: u16,
}

/// A form that is read.
#[derive(Clone, Copy)]
pub(crate) struct Format {
    pub(crate) channels: u16,
    pub(crate) rate: u32,
    pub(crate) bits: u16,
}

impl Model for Format {
    ghost use Rattle.sound_model.specs.Wav.{Form};
    ghost use Rattle.wav_codec.specs.Fields.{IsForm};

    ghost Value = { Form };

    ghost view = { λ f. record { channels = f.channels; rate = f.rate; bits = f.bits } };

    ghost inverse = { λ f. record { channels = f.channels; rate = f.rate; bits = f.bits } };

    ghost invariant = { λ f.
        IsForm (record { channels = f.channels; rate = f.rate; bits = f.bits }) };
}

impl Fields {
    /// The fields of a `fmt ` chunk's first 16 bytes, or none where they aren't there.
    pub(crate) fn from_bytes(bytes: &[u8]) -> Option<Fields>
        ensures { MatchOption result (length bytes.now ≢ 16)
            (λ fields. (length bytes.now ≡ 16) × (fields ≡ fields_at bytes.now)) }
    {
        let [t0, t1, c0, c1, r0, r1, r2, r3, _, _, _, _, a0, a1, b0, b1] = bytes else {
            return None;
        };
        let tag = u16::from_le_bytes([*t0, *t1]);
        Some(Fields {
            tag,
            pcm: tag == PCM,
            channels: u16::from_le_bytes([*c0, *c1]),
            rate: u32::from_le_bytes([*r0, *r1, *r2, *r3]),
            block: u16::from_le_bytes([*a0, *a1]),
            bits: u16::from_le_bytes([*b0, *b1]),
        })
    }

    /// Whether an extension follows that tells the kind of sound.
    pub(crate) fn is_extensible(self) -> bool
        ensures { result ≡ (self.tag == extensible) }
    {
        self.tag == EXTENSIBLE
    }

    /// The fields with the first 16 bytes of the extension: its size, which is 22 at least, and
    /// half of the subformat. Valid bits and the mask of channels aren't looked at.
    pub(crate) fn with_extension(self, bytes: &[u8]) -> Fields
        requires { 16 ≤ length bytes.now }
        ensures { result ≡ with_pcm (begins_pcm_extension bytes.now) self }
    {
        let size = u16::from_le_bytes([bytes[0], bytes[1]]);
        Fields {
            pcm: 22 <= size && &bytes[8..16] == &PCM_SUBFORMAT[..8],
            ..self
        }
    }

    /// The fields with the other half of the subformat.
    pub(crate) fn with_subformat(self, bytes: &[u8]) -> Fields
        ensures { result ≡ with_pcm (self.pcm && bytes_eq bytes.now (drop 8 pcm_subformat)) self }
    {
        Fields {
            pcm: self.pcm && bytes == &PCM_SUBFORMAT[8..],
            ..self
        }
    }

    /// The form of the fields, or the first of them that isn't read.
    pub(crate) fn form(self) -> Result<Format, WavRefusal>
        ensures { Gives result (form_given self) }
    {
        if !self.pcm {
            return Err(WavRefusal::Format(self.tag));
        }
        if self.channels < 1 || 8 < self.channels {
            return Err(WavRefusal::Channels(self.channels));
        }
        if self.bits != 8 && self.bits != 16 && self.bits != 24 {
            return Err(WavRefusal::Bits(self.bits));
        }
        if self.rate < 8_000 || 192_000 < self.rate {
            return Err(WavRefusal::Rate(self.rate));
        }
        if self.block != self.channels * (self.bits / 8) {
            return Err(WavRefusal::Align(self.block));
        }
        Ok(Format {
            channels: self.channels,
            rate: self.rate,
            bits: self.bits,
        })
    }
}
