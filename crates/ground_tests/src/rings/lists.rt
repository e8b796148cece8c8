//! Lists of ends, through which a ring is found by its number.
ghost use Rattle.std.specs.Prelude.{◌≡◌, []};

use super::{boxed, new_ring};
use disk_ring::{Nothing, RingIn, RingInList, RingOut, RingOutList};
use piece_item::Ack;
use ses_io::NoMemory;
use std::alloc::Global;

// Whether the second ring ends, when it is closed by the list of one end and found by the list of the other.
fn second_is_closed(
    sends: &mut RingInList<Ack>,
    takes: &mut RingOutList<Ack>,
    first: (RingIn<Ack>, RingOut<Ack>),
    second: (RingIn<Ack>, RingOut<Ack>),
    husk: Box<Ack>,
) -> bool
    requires sends { (sends.old.items ≡ []) × (sends.old.room ≡ 2) }
    requires takes { (takes.old.items ≡ []) × (takes.old.room ≡ 2) }
    requires room { second.1.room ≡ 0 }
{
    sends.push(first.0);
    takes.push(first.1);
    sends.push(second.0);
    takes.push(second.1);
    sends.as_mut_slice()[1].close();
    let mut from = takes.pop();
    let closed = matches!(from.take(husk), Err(Nothing::Closed { tail: 0, .. }));
    closed && sends.as_slice().len() == 2
}

fn is_closed_in_lists(
    alloc: Global,
    sends: &mut RingInList<Ack>,
    takes: &mut RingOutList<Ack>,
) -> Result<bool, NoMemory>
    requires sends { (sends.old.items ≡ []) × (sends.old.room ≡ 2) }
    requires takes { (takes.old.items ≡ []) × (takes.old.room ≡ 2) }
{
    let husk = boxed(alloc, 7)?;
    let first = new_ring(alloc, 1)?;
    let second = new_ring(alloc, 2)?;
    Ok(second_is_closed(sends, takes, first, second, husk))
}

/// Whether a list of ends lends each.
pub(super) fn second_is_found(alloc: Global) -> Result<bool, NoMemory> {
    let mut sends = RingInList::new(alloc, 2)?;
    let mut takes = RingOutList::new(alloc, 2)?;
    is_closed_in_lists(alloc, &mut sends, &mut takes)
}
