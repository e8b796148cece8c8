//! The end of a ring that puts. No call of it takes memory, locks or waits.
ghost use Rattle.std.specs.Prelude.{◌≡◌, ◌⊎◌, ◌+◌, ◌^◌, ◌≤◌, ◌↔◌, IsTrue, true, false, MatchResult};
ghost use Rattle.disk_ring.specs.Sender.{GoesOnIn, Puts, Refuses};

use crate::ring_table::{Place, RingTable};
use crate::roomy::Roomy;
use crate::steps::{look_at_head, send, shut_off};
use std::marker::Model;
use std::sync::Arc;

/// The most items that a ring ever takes, 2^62.
const MOST: u64 = 1 << 62;

/// The end that puts, for one thread at a time.
#[derive(Drop)]
pub struct RingIn<T: Roomy> {
    pub(crate) ring_table: Arc<RingTable<T>>,
    pub(crate) seat: Place<T>,
    pub(crate) count: u64,
    pub(crate) depth: u64,
    /// How many items were received, as far as it knows.
    pub(crate) got: u64,
    /// The tail word, as it stored it.
    pub(crate) word: u64,
}

impl<T: Roomy> Model for RingIn<T> {
    ghost use Rattle.std.specs.Arc.{arc_value};
    ghost use Rattle.disk_ring.specs.Places.{SenderOk};
    ghost use Rattle.disk_ring.specs.Sender.{Sender, sender_of};

    ghost Value = { Sender T };

    ghost view = { λ r. sender_of r.seat r.depth };

    ghost invariant = { λ r. SenderOk (arc_value r.ring_table).shared.table_id r.seat r.count
        r.depth r.got r.word };
}

/// The item wasn't put, and comes back, with the head that was loaded: the number received by then.
#[derive(Drop)]
pub struct Full<T> {
    pub item: Box<T>,
    pub head: u64,
}

// Whether this head leaves no room for one more item.
fn is_full(sent: u64, head: u64, depth: u64) -> bool
    requires { head ≤ sent }
    ensures { IsTrue result ↔ ((sent ≡ head + depth) ⊎ (sent ≡ 2 ^ 62)) }
{
    sent - head == depth || sent == MOST
}

impl<T: Roomy> RingIn<T> {
    /// Puts the item, and hands an empty box back. Full exactly where the head loaded in this call
    /// is the number sent minus the depth, or where 2^62 items were sent.
    pub fn put(&mut self, full: Box<T>) -> Result<Box<T>, Full<T>>
        requires open { self.old.closed ≡ false }
        requires room { T.room_of full.value ≡ self.old.room }
        ensures ring { GoesOnIn self.old self.new }
        ensures answer { MatchResult result
            (λ husk. Puts T.room_of self.old full.value husk.value self.new)
            (λ e. (e.item ≡ full) × Refuses self.old e.head self.new) }
    {
        let ring_table: &RingTable<T> = &self.ring_table;
        let head = look_at_head(ring_table, &mut self.seat);
        self.got = head;
        if is_full(self.count, head, self.depth) {
            return Err(Full { item: full, head });
        }
        let slot = (self.count % self.depth) as usize;
        let husk = send(ring_table, &mut self.seat, slot, self.count, full);
        self.count += 1;
        self.word = 2 * self.count;
        Ok(husk)
    }

    /// Closes the ring: the consumer is answered Closed once it has taken all that was sent.
    pub fn close(&mut self)
        ensures { self.new ≡ record self.old { closed = true } }
    {
        shut_off(&self.ring_table, &mut self.seat, self.count);
        self.word = 2 * self.count + 1;
    }
}
