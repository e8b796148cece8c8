//! The two ends of a ring in one place: they tell each other what they know, or become one.
ghost use Rattle.std.specs.Prelude.{◌≡◌, IsTrue, length};
ghost use Rattle.disk_ring.specs.Sender.{GoesOnIn};
ghost use Rattle.disk_ring.specs.Receiver.{GoesOnOut};
ghost use Rattle.disk_ring.specs.Rings.{Agree, Met, StillMet, Whole, joined_of};

use crate::ring_in::RingIn;
use crate::ring_out::RingOut;
use crate::roomy::Roomy;
use crate::tells::{tell_consumer, tell_heard, tell_producer};
use std::marker::Model;

/// A ring whose two ends are in one place again.
#[derive(Drop)]
pub struct Ring<T: Roomy> {
    sender: RingIn<T>,
    receiver: RingOut<T>,
}

impl<T: Roomy> Model for Ring<T> {
    ghost use Rattle.disk_ring.specs.Rings.{Joined, Whole, joined_of};

    ghost Value = { Joined T };

    ghost view = { λ r. joined_of r.sender r.receiver };

    ghost invariant = { λ r. Whole (joined_of r.sender r.receiver) };
}

/// The two ends of one ring tell each other what was sent and what was received by now.
pub fn meet<T: Roomy>(a: &mut RingIn<T>, b: &mut RingOut<T>)
    requires { b.old.ring ≡ a.old.ring }
    ensures sender { a.new ≡ record a.old { got = length b.old.received } }
    ensures receiver { b.new ≡ record b.old { heard = a.old.sent; over = a.old.closed } }
    ensures met { Met a.old b.old }
    ensures sender_goes_on { GoesOnIn a.old a.new }
    ensures receiver_goes_on { GoesOnOut b.old b.new }
{
    tell_heard(&a.ring_table, &mut a.seat, &mut b.seat);
    tell_consumer(&a.ring_table, &mut b.seat, &mut a.seat);
    tell_producer(&a.ring_table, &mut a.seat, &mut b.seat);
    a.got = b.count;
    b.word = a.word;
}

// Whether their counts say that nothing moved since the two ends met.
fn agree<T: Roomy>(a: &RingIn<T>, b: &RingOut<T>) -> bool
    ensures { IsTrue result → Agree a.now b.now }
{
    a.got == b.count && a.word == b.word
}

/// The same of two ends that have met before: where their counts say that nothing moved since, it
/// does nothing.
pub fn meet_again<T: Roomy>(a: &mut RingIn<T>, b: &mut RingOut<T>)
    requires ring { b.old.ring ≡ a.old.ring }
    requires still_met { StillMet a.old b.old }
    ensures sender { a.new ≡ record a.old { got = length b.old.received } }
    ensures receiver { b.new ≡ record b.old { heard = a.old.sent; over = a.old.closed } }
    ensures met { Met a.old b.old }
    ensures sender_goes_on { GoesOnIn a.old a.new }
    ensures receiver_goes_on { GoesOnOut b.old b.new }
{
    if !agree(a, b) {
        meet(a, b);
    }
}

/// The ring of two ends, which nothing changes any more.
pub fn rejoin<T: Roomy>(a: RingIn<T>, b: RingOut<T>) -> Ring<T>
    requires { b.ring ≡ a.ring }
    ensures lists { result ≡ joined_of a b }
    ensures whole { Whole result }
{
    let mut sender = a;
    let mut receiver = b;
    meet(&mut sender, &mut receiver);
    Ring { sender, receiver }
}

impl<T: Roomy> Ring<T> {
    /// What is so of every rejoined ring: it shows a proof what it may rest on, and does nothing.
    pub fn facts(&self)
        ensures { Whole self.now }
    {
        let _ = &self.sender;
    }
}
