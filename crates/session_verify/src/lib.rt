//! `verify`: the report and the master of a finished run are held against its session, from the bytes of their files.
#![tactic(auto)]

mod laws;
mod verifying;

pub use laws::what_agrees_is_answered;
pub use verifying::verify;
