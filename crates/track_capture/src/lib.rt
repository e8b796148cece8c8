//! What a track records in a cycle: its channels of the input go into its capture ring, or are lost where that is full.
#![tactic(auto)]

mod capture;
mod laws;
mod picking;

pub use capture::{Place, TrackCapture, records};
pub use laws::the_input_is_picked;
