//! What control leaves.

/// What control leaves.
#[derive(Drop)]
pub struct ControlParts<C, O> {
    /// What its lines were read from, as far as they were.
    pub source: C,
    /// Where the replies went.
    pub out: O,
    /// A read of the source failed.
    pub read_failed: bool,
    /// A write of out failed.
    pub write_failed: bool,
    /// All 16,777,216 bytes were read that may be, and no quit was accepted.
    pub long: bool,
}
