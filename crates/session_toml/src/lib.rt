//! A session's text in TOML, read as a session or refused by the first rule that it breaks.
#![tactic(auto)]

mod build;
mod desk;
mod laws;
mod places;
mod rules;
mod session;

pub use laws::{accepted_is_said, accepted_is_valid, first_version_is_linear};
pub use session::session_of;
pub use session_model::{Key, Part, Place, SessionRefusal};
pub use session_walk::SessionFault;
