//! Frames of a session's master, rendered offline into a file that a sink takes.
#![tactic(auto)]

mod desk;
mod fault;
mod form;
mod render;
mod samples;

pub use fault::RenderFault;
pub use render::render_master;
