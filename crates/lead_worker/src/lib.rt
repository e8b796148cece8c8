//! Control beside other workers: its lines, each carried out and answered before the next one, the cycles that it allows, and what it
//! hears of the process.
#![tactic(auto)]

mod hearing;
mod laws;
mod leading;
mod line;
mod link;
mod settling;

pub use hearing::AckHearing;
pub use laws::heard_is_true;
pub use leading::{LeadWorker, Led, lead};
pub use link::ProcessLink;
