//! Acknowledgements are taken, and of each generation the greatest next block is kept.
ghost use Rattle.std.specs.Prelude.{◌≡◌, ◌≤◌, length, slice_index_or};
ghost use Rattle.piece_item.specs.Views.{ack_of};
ghost use Rattle.capture_drain.specs.Drains.{IsDrained};
ghost use Rattle.butler.specs.Sends.{acks_of};
ghost use Rattle.butler.specs.Table.{IsTable, Notes};

use disk_ring::{Nothing, RingOut};
use edition_log::Edition;
use piece_item::Ack;

/// Notes an acknowledgement. A generation that the table doesn't have is left out.
fn note(nexts: &mut [u32], ack: &Ack)
    ensures { Notes (ack_of ack.now) nexts.old nexts.new }
{
    let generation = ack.generation as usize;
    if generation < nexts.len() {
        nexts[generation] = nexts[generation].max(ack.next);
    }
}

/// Takes acknowledgements until there is none, and gives a husk back, and whether none ever comes.
pub(crate) fn accept(
    acks: &mut RingOut<Ack>,
    first: Box<Ack>,
    nexts: &mut [u32],
) -> (Box<Ack>, bool)
    requires room { acks.old.room ≡ 0 }
    ensures ended { result.1 ≡ acks.new.ended }
    ensures taken { IsDrained acks.old acks.new }
    ensures table { IsTable nexts.old (acks_of acks.old.received)
        → IsTable nexts.new (acks_of acks.new.received) }
{
    let mut husk = first;
    loop {
        match acks.take(husk) {
            Ok(ack) => {
                note(nexts, &ack);
                husk = ack;
            }
            Err(Nothing::Empty { husk, tail: _ }) => return (husk, false),
            Err(Nothing::Closed { husk, tail: _ }) => return (husk, true),
        }
    }
}

/// The next block of an edition's generation, by the table.
pub(crate) fn next_of(nexts: &[u32], e: &Edition) -> u32
    requires generations { length nexts.now ≡ 10001 }
    requires few { e.now.transport.generation ≤ 10000 }
    ensures { result ≡ slice_index_or nexts.now e.now.transport.generation 0 }
{
    nexts[e.transport().generation as usize]
}
