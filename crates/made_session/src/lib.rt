//! A large valid session that is made from a number, and the file of its one source.
#![tactic(auto)]

mod counts;
mod regions;
mod routes;
mod session;
mod sources;
mod tone_file;
mod tracks;

pub use counts::{regions_each, tracks_made};
pub use session::made_session;
pub use tone_file::{tone, tone_sounds};
