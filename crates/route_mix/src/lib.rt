//! The desk: routes take in what feeds them, and give it on through faders and sends, block by block.
#![tactic(auto)]

mod blocks;
mod desk;
mod faders;
mod feeds;
mod mixing;
mod opening;
mod sound;
mod sums;
mod turns;

pub use desk::Desk;
