//! A report of a run and its master are held against the session.
#![tactic(auto)]

mod checker;
mod checking;
mod entries;
mod form;
mod laws;
mod lines;
mod reading;
mod unverified;

pub use checking::check;
pub use laws::{verified_where_all_agree, what_agrees_is_verified};
pub use unverified::Unverified;
