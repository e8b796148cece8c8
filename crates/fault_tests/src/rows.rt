//! Rows of runs of which something fails, worked out by hand.
mod failing;
mod ordered;
mod refused;

pub(crate) use failing::FAILING;
pub(crate) use ordered::ORDERED;
pub(crate) use refused::{REFUSED, TAKES_EXIST};
