//! Why the file of a master wasn't written whole.
use ses_io::NoMemory;

/// Why the file of a master wasn't written whole.
#[derive(Clone, Copy, Debug, PartialEq, Eq)]
pub enum RenderFault {
    /// A read of the sources failed, and their count rose.
    ReadFault,
    /// A write of the master failed, and its count rose.
    MasterFault,
    /// There was no memory. Nothing was read or written.
    NoMemory,
}

impl From<NoMemory> for RenderFault {
    ghost use Rattle.std.specs.Prelude.{◌≡◌};
    ghost use Rattle.master_render.specs.declared.fault.RenderFault.TheVariants.{NoMemory as NoMemoryFault};

    ghost from_gives = { λ _ e. e ≡ NoMemoryFault };

    fn from(_error: NoMemory) -> RenderFault {
        RenderFault::NoMemory
    }
}
