//! A row of a table.

use std::process::Abort;

/// A row of a table holds.
pub(crate) fn row_holds<R: Abort>(rt: &R, at: usize, right: bool) {
    assert!(rt; right, "row {at}");
}
