//! A run, from the bytes of its files to what it leaves: a session is opened, its input is judged, it is played on one thread, and out gets
//! its report and the line that says how it failed.
#![tactic(auto)]

mod asked;
mod ending;
mod heading;
mod letters;
mod opening;
mod outcome;
mod playing;
mod reporting;

pub use asked::{Letters, Request};
pub use ending::status_at_end;
pub use outcome::{Outcome, unplayed};
pub use playing::play;
