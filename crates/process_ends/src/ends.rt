//! The process's ends of the rings of a run.
use disk_ring::{RingIn, RingInList, RingOutList};
use piece_item::{Ack, Item, TakeBlock};

/// The ends that the process has: it takes items, and sends blocks of takes and acknowledgements.
#[derive(Drop)]
pub struct ProcessEnds {
    /// Of each track the end that takes its items.
    pub plays: RingOutList<Item>,
    /// Of each track the end that sends the blocks of its takes.
    pub takes: RingInList<TakeBlock>,
    /// The end that acknowledges to the butler.
    pub to_butler: RingIn<Ack>,
    /// The end that acknowledges to control.
    pub to_control: RingIn<Ack>,
}
