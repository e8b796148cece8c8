//! The steps of the two ends at a ring's table, each with what it tells.
ghost use Rattle.std.specs.Prelude.{◌≡◌, ℕ, ◌*◌, ◌+◌, ◌^◌, ◌<◌, ◌≤◌, [], ◌∷◌, ◌++◌, true, false, length, Box};
ghost use Rattle.std.specs.Global.{Global};
ghost use mathlib.Core.Option.{none};
ghost use Rattle.atomic_table.specs.Table.{step};
ghost use Rattle.disk_ring.specs.Places.{IsSameSeat, IsProducer, IsConsumer, IsFilling, IsEmptying};
ghost use Rattle.disk_ring.specs.Steps.{GlancedAt, SawHead, SawTail, Shut};

use crate::plays::{Append, Free, GlanceAtTail, SeeHead, SeeTail, SetBit};
use crate::ring_table::{HEAD, Place, RingTable, TAIL};
use crate::roomy::Roomy;

/// The producer loads the head, and takes the slot of its next item where there is one.
pub(crate) fn look_at_head<T: Roomy>(ring_table: &RingTable<T>, place: &mut Place<T>) -> u64
    requires { IsProducer ring_table.now.shared.table_id place.old }
    ensures same { IsSameSeat place.old place.new }
    ensures saw { SawHead (λ b. b.value) T.room_of
        (step ring_table.now.shared.table_id.slots 0 0 0 none) place.old.me result place.new.me }
{
    ring_table.shared.load::<SeeHead>(place, HEAD)
}

/// The producer puts the item into the slot in its hand, and stores the tail.
pub(crate) fn send<T: Roomy>(
    ring_table: &RingTable<T>,
    place: &mut Place<T>,
    slot: usize,
    count: u64,
    full: Box<T>,
) -> Box<T>
    requires place { IsFilling ring_table.now.shared.table_id slot place.old }
    requires hand { (b : Box T Global) × (place.old.me.1 ≡ (slot, b) ∷ [])
        × (T.room_of b.value ≡ place.old.me.0.room) }
    requires room { T.room_of full.value ≡ place.old.me.0.room }
    requires count { (count ≡ length place.old.me.0.sent) × (count < 2 ^ 62) }
    ensures same { IsSameSeat place.old place.new }
    ensures husk { T.room_of result.value ≡ place.old.me.0.room }
    ensures sent { place.new.me ≡ (
      record place.old.me.0
          { sent = place.old.me.0.sent ++ full.value ∷ []; filling = false },
      [],
    ) }
{
    let husk = ring_table.shared.exchange(place, slot, full);
    ring_table
        .shared
        .store::<Append>(place, TAIL, 2 * (count + 1));
    husk
}

/// The producer stores the close bit.
pub(crate) fn shut_off<T: Roomy>(ring_table: &RingTable<T>, place: &mut Place<T>, count: u64)
    requires place { IsProducer ring_table.now.shared.table_id place.old }
    requires count { (count ≡ length place.old.me.0.sent) × (count ≤ 2 ^ 62) }
    ensures same { IsSameSeat place.old place.new }
    ensures shut { Shut place.old.me place.new.me }
{
    ring_table
        .shared
        .store::<SetBit>(place, TAIL, 2 * count + 1)
}

/// The consumer loads the tail word, and takes the slot of the next item where there is one.
pub(crate) fn look_at_tail<T: Roomy>(ring_table: &RingTable<T>, place: &mut Place<T>) -> u64
    requires { IsConsumer ring_table.now.shared.table_id place.old }
    ensures same { IsSameSeat place.old place.new }
    ensures saw { SawTail (λ b. b.value) T.room_of
        (step ring_table.now.shared.table_id.slots 1 0 0 none) place.old.me result place.new.me }
{
    ring_table.shared.load::<SeeTail>(place, TAIL)
}

/// The consumer loads the tail word, and takes no slot.
pub(crate) fn glance_at_tail<T: Roomy>(ring_table: &RingTable<T>, place: &mut Place<T>) -> u64
    requires { IsConsumer ring_table.now.shared.table_id place.old }
    ensures same { IsSameSeat place.old place.new }
    ensures glanced { GlancedAt place.old.me result place.new.me }
{
    ring_table.shared.load::<GlanceAtTail>(place, TAIL)
}

/// The consumer takes the item out of the slot in its hand, leaves the husk there, and stores the
/// head.
pub(crate) fn receive<T: Roomy>(
    ring_table: &RingTable<T>,
    place: &mut Place<T>,
    slot: usize,
    count: u64,
    husk: Box<T>,
) -> Box<T>
    requires place { IsEmptying ring_table.now.shared.table_id slot place.old }
    requires hand { (b : Box T Global) × (place.old.me.1 ≡ (slot, b) ∷ [])
        × (place.old.me.0.held ≡ b.value ∷ []) × (T.room_of b.value ≡ place.old.me.0.room) }
    requires room { T.room_of husk.value ≡ place.old.me.0.room }
    requires count { (count ≡ length place.old.me.0.received) × (count < 2 ^ 62) }
    ensures same { IsSameSeat place.old place.new }
    ensures item { (place.old.me.0.held ≡ result.value ∷ [])
        × (T.room_of result.value ≡ place.old.me.0.room) }
    ensures received { place.new.me ≡ (
      record place.old.me.0
          { received = place.old.me.0.received ++ place.old.me.0.held; held = [] },
      [],
    ) }
{
    let item = ring_table.shared.exchange(place, slot, husk);
    ring_table.shared.store::<Free>(place, HEAD, count + 1);
    item
}
