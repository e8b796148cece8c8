//! The name of a line: line k of a source is its frames from 4,096 * k on.

/// Which line of which source.
#[derive(Clone, Copy)]
pub(crate) struct LineName {
    pub(crate) source: u32,
    pub(crate) line: u64,
}
