//! The text of a session: reading it gives the session again.
#![tactic(auto)]

mod desk;
mod document;
mod lanes;
mod laws;
mod names;
mod regions;
mod routes;
mod sends;
mod sources;
mod tables;
mod tracks;
mod words;

pub use document::text_of_session;
pub use laws::{migrated_sounds_the_same, read_sessions_stay};
