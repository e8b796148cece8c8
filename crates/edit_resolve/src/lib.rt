//! What an edit changes of a session, or the first rule that it breaks: its rules are asked in their one order.
#![tactic(auto)]

mod blends;
mod links;
mod material;
mod names;
mod reason;
mod reason_text;
mod regions;
mod resolving;
mod routes;
mod rules;
mod scans;
mod standing;
mod transport;

pub use reason::{Bound, Refusal};
pub use resolving::change_of;
