//! Why a block wasn't made.
use audio_source::ReadFault;
use ses_io::NoMemory;

/// Why a block wasn't made.
#[derive(Clone, Copy, Debug, PartialEq, Eq)]
pub enum HeardFault {
    /// A read of the sources failed, and the media's count of them rose.
    ReadFault,
    /// There was no memory for the block's bytes.
    NoMemory,
}

impl From<ReadFault> for HeardFault {
    ghost use Rattle.std.specs.Prelude.{◌≡◌};
    ghost use Rattle.heard_blocks.specs.declared.fault.HeardFault.TheVariants as why;

    ghost from_gives = { λ _ e. e ≡ why.ReadFault };

    fn from(_error: ReadFault) -> HeardFault {
        HeardFault::ReadFault
    }
}

impl From<NoMemory> for HeardFault {
    ghost use Rattle.std.specs.Prelude.{◌≡◌};
    ghost use Rattle.heard_blocks.specs.declared.fault.HeardFault.TheVariants as why;

    ghost from_gives = { λ _ e. e ≡ why.NoMemory };

    fn from(_error: NoMemory) -> HeardFault {
        HeardFault::NoMemory
    }
}
