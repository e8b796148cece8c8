//! On one thread both ends meet before a call, and its answer is then settled by the two lists.
ghost use Rattle.std.specs.Prelude.{◌≡◌, ◌⊎◌, ◌+◌, ◌^◌, false, length, IfNone, IfErr};
ghost use Rattle.disk_ring.specs.Sender.{GoesOnIn};
ghost use Rattle.disk_ring.specs.Receiver.{GoesOnOut};

use super::{boxed, new_ring};
use disk_ring::{Full, RingIn, RingOut, meet, rejoin};
use piece_item::Ack;
use ses_io::NoMemory;
use std::alloc::Global;

// Takes, and tells the item's number: None only where all that was sent had been received.
fn take_after_meeting(to: &mut RingIn<Ack>, from: &mut RingOut<Ack>, husk: Box<Ack>) -> Option<u32>
    requires ring { from.old.ring ≡ to.old.ring }
    requires room { from.old.room ≡ 0 }
    ensures none { IfNone result (from.old.received ≡ to.old.sent) }
    ensures sender { GoesOnIn to.old to.new }
    ensures receiver { GoesOnOut from.old from.new }
{
    meet(to, from);
    match from.take(husk) {
        Ok(item) => Some(item.cycle),
        Err(_nothing) => None,
    }
}

// Puts, and tells the husk's number. The item comes back, told by its number and the head, only where every box waits, or
// the ring had its 2^62 items.
fn put_after_meeting(
    to: &mut RingIn<Ack>,
    from: &mut RingOut<Ack>,
    item: Box<Ack>,
) -> Result<u32, (u32, u64)>
    requires ring { from.old.ring ≡ to.old.ring }
    requires open { to.old.closed ≡ false }
    requires room { to.old.room ≡ 0 }
    ensures err { IfErr result (λ e.
        (length to.old.sent ≡ length from.old.received + to.old.depth)
        ⊎ (length to.old.sent ≡ 2 ^ 62)) }
    ensures sender { GoesOnIn to.old to.new }
    ensures receiver { GoesOnOut from.old from.new }
{
    meet(to, from);
    match to.put(item) {
        Ok(husk) => Ok(husk.cycle),
        Err(Full { item, head }) => Err((item.cycle, head)),
    }
}

// Whether a ring of one box answers as it has to. The husk that comes last is the box with which the item before it was
// taken.
fn answers(alloc: Global, to: &mut RingIn<Ack>, from: &mut RingOut<Ack>) -> Result<bool, NoMemory>
    requires ring { from.old.ring ≡ to.old.ring }
    requires open { to.old.closed ≡ false }
    requires room { (to.old.room ≡ 0) × (from.old.room ≡ 0) }
    ensures { from.new.ring ≡ to.new.ring }
{
    let nothing = take_after_meeting(to, from, boxed(alloc, 7)?);
    let put = put_after_meeting(to, from, boxed(alloc, 1)?);
    let refused = put_after_meeting(to, from, boxed(alloc, 2)?);
    let taken = take_after_meeting(to, from, boxed(alloc, 9)?);
    let husk = put_after_meeting(to, from, boxed(alloc, 2)?);
    Ok(
        nothing.is_none()
            && put == Ok(0)
            && refused == Err((2, 0))
            && taken == Some(1)
            && husk == Ok(9),
    )
}

/// Whether two ends meet, answer as they have to, and are joined.
pub(super) fn ends_answer(alloc: Global) -> Result<bool, NoMemory> {
    let (mut to, mut from) = new_ring(alloc, 1)?;
    let right = answers(alloc, &mut to, &mut from);
    rejoin(to, from).facts();
    right
}
