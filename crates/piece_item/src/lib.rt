//! The boxes that travel between butler and process: items of a track, blocks of a take, acknowledgements.
//!
//! A piece is *touched* by the last edit of its track's playlist that it was made by, and carries that edit's number.
//! *Settled* is a mark in a ring: from a block on, all that was sent of the track is as an edition has it.
#![tactic(auto)]

mod ack;
mod butler_ends;
mod item;
mod kind;
mod sample_block;
mod silence;
mod take_block;

pub use ack::Ack;
pub use butler_ends::ButlerEnds;
pub use item::Item;
pub use kind::Kind;
pub use sample_block::SampleBlock;
pub use take_block::TakeBlock;
