//! What is kept of one capture ring between two calls.
use piece_item::TakeBlock;

/// A box to be given for the next block, which is taken out only within a call, and whether the ring has answered Closed.
#[derive(Drop)]
pub(crate) struct TrackDrain {
    pub(crate) husk: Option<Box<TakeBlock>>,
    pub(crate) ended: bool,
}
