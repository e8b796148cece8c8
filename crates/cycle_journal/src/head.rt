//! The form of a run.
use ses_units::Bits;

/// The form of a run, as its report has it.
#[derive(Clone, Copy, Debug, PartialEq, Eq)]
pub struct ReportHead {
    /// Frames a second.
    pub rate: u32,
    pub bits: Bits,
    /// Channels of the master.
    pub channels: u16,
    /// Frames of a cycle.
    pub block: u32,
    /// How many cycles were asked.
    pub cycles: u32,
}
