//! Why there is no input to play with.
use cycle_journal::InputRefusal;

/// Why there is no input to play with.
#[derive(Clone, Copy, PartialEq, Eq)]
pub enum NoInput {
    /// Its head is refused.
    Refused(InputRefusal),
    /// A read failed, and the input's count of faults rose.
    Fault,
}
