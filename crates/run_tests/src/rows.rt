//! Rows that were worked out by hand.
mod controlled;
mod lettered;
mod recorded;
mod serial;
mod worded;

pub(crate) use controlled::CONTROLLED;
pub(crate) use lettered::LETTERED;
pub(crate) use recorded::RECORDED;
pub(crate) use serial::SERIALLY;
pub(crate) use worded::WORDED;
