//! What the files of the media open to, or the first thing that is wrong and its status.
#![tactic(auto)]

mod laws;
mod loading;
mod no_session;
mod reading;
mod status;
mod takes;
mod unopened;

pub use laws::{open_is_valid, refused_is_first};
pub use loading::{Loaded, Opened, open, open_session, read_session};
pub use no_session::NoSession;
pub use status::status_of;
pub use takes::has_takes;
pub use unopened::Unopened;
