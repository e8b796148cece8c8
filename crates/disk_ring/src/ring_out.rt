//! The end of a ring that takes. No call of it takes memory, locks or waits.
ghost use Rattle.std.specs.Prelude.{◌≡◌, ◌/◌, ◌^◌, ◌≤◌, true, false, length, MatchResult};
ghost use Rattle.disk_ring.specs.Receiver.{FoundEmpty, FoundMore, GoesOnOut, Takes};
ghost use Rattle.disk_ring.specs.Answers.{FoundNothing};
ghost use Rattle.disk_ring.specs.Steps.{close_bit};

use crate::nothing::Nothing;
use crate::ring_table::{Place, RingTable};
use crate::roomy::Roomy;
use crate::steps::{glance_at_tail, look_at_tail, receive};
use std::marker::Model;
use std::sync::Arc;

/// The end that takes, for one thread at a time.
#[derive(Drop)]
pub struct RingOut<T: Roomy> {
    pub(crate) ring_table: Arc<RingTable<T>>,
    pub(crate) seat: Place<T>,
    pub(crate) count: u64,
    pub(crate) depth: u64,
    /// The newest tail word that it knows of: of how many items it was told, and whether these are
    /// all.
    pub(crate) word: u64,
}

impl<T: Roomy> Model for RingOut<T> {
    ghost use Rattle.std.specs.Arc.{arc_value};
    ghost use Rattle.disk_ring.specs.Places.{ReceiverOk};
    ghost use Rattle.disk_ring.specs.Receiver.{Receiver, receiver_of};

    ghost Value = { Receiver T };

    ghost view = { λ r. receiver_of r.seat r.depth };

    ghost invariant = { λ r.
        ReceiverOk (arc_value r.ring_table).shared.table_id r.seat r.count r.depth r.word };
}

// The answer of an end that received all, by the close bit of the tail word.
fn nothing<T>(word: u64, husk: Box<T>) -> Nothing<T>
    ensures closed { close_bit word ≡ true → result ≡ Nothing.Closed husk (word / 2) }
    ensures empty { close_bit word ≡ false → result ≡ Nothing.Empty husk (word / 2) }
{
    let tail = word / 2;
    if word % 2 == 1 {
        Nothing::Closed { husk, tail }
    } else {
        Nothing::Empty { husk, tail }
    }
}

impl<T: Roomy> RingOut<T> {
    /// How many items it has received.
    pub fn received(&self) -> u64
        ensures received { result ≡ length self.now.received }
        ensures small { result ≤ 2 ^ 62 }
    {
        self.count
    }

    /// Whether there is nothing to take, and more may come: so exactly where the tail loaded in this
    /// call is the number received and the close bit wasn't set in it, and then `take` would have
    /// answered Empty. Otherwise it is told of more items than it received, or that these are all.
    pub fn is_empty(&mut self) -> bool
        ensures ring { GoesOnOut self.old self.new }
        ensures empty { result ≡ true
            → FoundEmpty self.old (length self.old.received) self.new }
        ensures more { result ≡ false → FoundMore self.old self.new }
    {
        let word = glance_at_tail(&self.ring_table, &mut self.seat);
        self.word = word;
        word == 2 * self.count
    }

    /// Takes the next item, and keeps the husk. Empty exactly where the tail loaded in this call is
    /// the number received and the close bit wasn't set in it, Closed exactly where it was.
    pub fn take(&mut self, husk: Box<T>) -> Result<Box<T>, Nothing<T>>
        requires room { T.room_of husk.value ≡ self.old.room }
        ensures ring { GoesOnOut self.old self.new }
        ensures answer { MatchResult result
            (λ item. Takes T.room_of self.old item.value self.new)
            (λ e. FoundNothing self.old husk e self.new) }
    {
        let ring_table: &RingTable<T> = &self.ring_table;
        let word = look_at_tail(ring_table, &mut self.seat);
        let tail = word / 2;
        if tail == self.count {
            self.word = word;
            return Err(nothing(word, husk));
        }
        let slot = (self.count % self.depth) as usize;
        let item = receive(ring_table, &mut self.seat, slot, self.count, husk);
        self.count += 1;
        Ok(item)
    }
}
