//! What the head of a WAV file says.

/// The form of a WAV file that is read, and where its sound stands.
#[derive(Clone, Copy, Debug, PartialEq, Eq)]
pub struct WavInfo {
    /// Samples of a frame.
    pub channels: u16,
    /// Frames per second.
    pub rate: u32,
    /// The bits of a sample.
    pub bits: u16,
    /// The place of the first byte of the sound.
    pub data_at: u64,
    /// The whole frames that the file tells. A stream may end before them.
    pub frames: u64,
}
