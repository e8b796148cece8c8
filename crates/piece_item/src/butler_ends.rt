//! The butler's ends of the rings of a run.
use crate::ack::Ack;
use crate::item::Item;
use crate::take_block::TakeBlock;
use disk_ring::{RingInList, RingOut, RingOutList};

/// The ends that the butler has: it sends items, and takes blocks of takes and acknowledgements.
#[derive(Drop)]
pub struct ButlerEnds {
    /// Of each track the end that sends its items.
    pub sends: RingInList<Item>,
    /// Of each track the end that takes the blocks of its takes.
    pub takes: RingOutList<TakeBlock>,
    /// The end that takes acknowledgements.
    pub acks: RingOut<Ack>,
}
