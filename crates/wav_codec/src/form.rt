//! The form of a WAV file that is written.

use ses_units::Bits;

/// The form of a WAV file that is written.
#[derive(Clone, Copy, Debug, PartialEq, Eq)]
pub struct WavForm {
    /// Samples of a frame.
    pub channels: u16,
    /// Frames per second.
    pub rate: u32,
    /// The bits of a sample.
    pub bits: Bits,
}
