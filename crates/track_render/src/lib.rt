//! A block of a track, of any valid session: its samples at the places of a transport.
#![tactic(auto)]

mod places;
mod rendering;
mod run;

pub use rendering::render;
