//! A master's file is held against its session: bytes at a place, its form, and the silence at its end.
#![tactic(auto)]

mod form;
mod holding;
mod silence;

pub use form::{data_long, has_form};
pub use holding::holds;
pub use silence::is_silent;
