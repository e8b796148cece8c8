//! Runs as they were left, and damaged.
mod edits;
mod files;
mod journals;
mod masters;
mod reports;

pub(crate) use edits::EDITS;
pub(crate) use files::FILES;
pub(crate) use journals::JOURNALS;
pub(crate) use masters::MASTERS;
pub(crate) use reports::REPORTS;
