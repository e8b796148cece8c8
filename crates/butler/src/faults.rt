//! What fails in a turn.
use thiserror::Error;

/// Why a turn ended early.
#[derive(Clone, Copy, Debug, PartialEq, Eq, Error)]
pub enum ButlerFault {
    /// A read of the media failed, and its count of failed reads rose. The playback rings are
    /// closed.
    #[error("a read failed")]
    ReadFault,
    /// A write of the media failed, and its count of failed writes rose. The take has failed: no
    /// further block of it is written.
    #[error("a write failed")]
    WriteFault,
}
