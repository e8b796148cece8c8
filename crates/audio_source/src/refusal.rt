//! Why sources aren't opened, and that a read failed.
use ses_io::Failed;
use std::alloc::{AllocError, AllocFailed};
use thiserror::Error;
use wav_codec::WavRefusal;

/// Why a source's file isn't opened: the first of these that holds.
#[derive(Clone, Copy, PartialEq, Eq)]
pub enum FileRefusal {
    /// The media has no such file.
    Absent,
    /// Its head isn't read.
    Wav(WavRefusal),
    /// It has other frames per second than the session.
    RateDiffers { has: u32, want: u32 },
    /// It has other channels than the source.
    ChannelsDiffer { has: u16, want: u16 },
}

/// Why sources aren't opened.
#[derive(Clone, Copy, PartialEq, Eq)]
pub enum OpenRefusal {
    /// The first source, by its index, whose file isn't opened.
    File { source: u32, why: FileRefusal },
    /// A read failed, and the media's count of them rose.
    ReadFault,
    /// There is no memory for the sources or their buffer.
    NoMemory,
}

impl From<AllocError> for OpenRefusal {
    ghost use Rattle.std.specs.Prelude.{◌≡◌};
    ghost use Rattle.audio_source.specs.declared.refusal.OpenRefusal.TheVariants.{NoMemory};

    ghost from_gives = { λ e r. r ≡ NoMemory };

    fn from(_error: AllocError) -> Self {
        OpenRefusal::NoMemory
    }
}

impl<T: Drop> From<AllocFailed<T>> for OpenRefusal {
    ghost use Rattle.std.specs.Prelude.{◌≡◌};
    ghost use Rattle.audio_source.specs.declared.refusal.OpenRefusal.TheVariants.{NoMemory};

    ghost from_gives = { λ e r. r ≡ NoMemory };

    fn from(_error: AllocFailed<T>) -> Self {
        OpenRefusal::NoMemory
    }
}

/// A read of the media failed, and its count of failed reads rose.
#[derive(Clone, Copy, Debug, PartialEq, Eq, Error)]
#[error("a read failed")]
pub struct ReadFault;

impl From<Failed> for ReadFault {
    ghost use Rattle.std.specs.Prelude.{⊤};

    ghost from_gives = { λ f e. ⊤ };

    fn from(_error: Failed) -> Self {
        ReadFault
    }
}
