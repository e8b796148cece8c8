//! The letters of a run.

/// What happens on one thread, one thing after another.
#[derive(Clone, Copy, Debug, PartialEq, Eq)]
pub enum Event {
    /// Control carries out one line.
    Control,
    /// The butler enters the newest edition, and makes a turn of one item.
    Butler,
    /// The process enters the newest edition, where it hasn't since its last entry.
    Enter,
    /// The process enters likewise, and looks once at each track.
    Gather,
    /// The process does the same, and then makes a cycle.
    Cycle,
}
