//! The table that the two ends of a ring share, its rule, and what a seat at it knows.
//! Word 0 is the number received. Word 1 is twice the number sent, and 1 more once closed.
//! Item k goes through slot `k % depth`. A slot always has a box, and the ends only swap boxes.
use crate::roomy::Roomy;
use atomic_table::{Seat, Table, TableRule};
use std::alloc::Global;
use std::collections::LinkedList;

/// The word of the number received.
pub(crate) const HEAD: usize = 0;

/// The word of the number sent.
pub(crate) const TAIL: usize = 1;

/// What a seat at the table knows. No value of it is made.
pub struct Known<T> {
    /// The room of the ring's boxes, as an end knows it.
    pub room: u64,
    /// Whether it is the producer's, and then all of its list, and whether it holds a slot to fill.
    pub sends: bool,
    pub sent: LinkedList<T>,
    pub closed: bool,
    pub filling: bool,
    pub heads: LinkedList<u64>,
    /// Whether it is the consumer's, and then all of its list, and the item in its hand.
    pub takes: bool,
    pub received: LinkedList<T>,
    pub held: LinkedList<T>,
    pub tails: LinkedList<u64>,
    pub ended: bool,
    /// What it was told: items that were sent, whether these are all, and how many were received.
    pub heard: LinkedList<T>,
    pub over: bool,
    pub got: u64,
}

/// The rule of a ring, for rings of each room.
pub struct RingRule;

impl<T: Roomy> TableRule<Box<T>, Known<T>, u64> for RingRule {
    ghost use Rattle.disk_ring.specs.Rule.{Law, opening_view};

    ghost holds = { λ room. Law (λ b. b.value) T.room_of room };

    ghost first = { opening_view };
}

/// The table of a ring.
pub type RingTable<T> = Table<Box<T>, Known<T>, u64, RingRule, Global>;

/// A seat at the table of a ring.
pub type Place<T> = Seat<Box<T>, Known<T>>;
