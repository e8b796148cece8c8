//! Why a take file wasn't written whole.

/// A write of the media failed, and its count of failed writes rose.
#[derive(Clone, Copy, Debug, PartialEq, Eq)]
pub struct WriteFault;
