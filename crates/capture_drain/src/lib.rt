//! Capture rings are drained: their blocks go into the take files, track by track, at most so many at a time.
#![tactic(auto)]

mod drain;
mod draining;
mod one_ring;
mod track;

pub use drain::CaptureDrain;
