//! How many bits a sample of a written file has.

/// The bits of a sample in a file that is written: 16 or 24, signed, the low byte first.
#[derive(Clone, Copy, Debug, PartialEq, Eq)]
pub enum Bits {
    /// 16 bits.
    B16,
    /// 24 bits.
    B24,
}
