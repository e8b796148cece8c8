//! How a ring is made.
ghost use Rattle.std.specs.Prelude.{◌≡◌, ℕ, ◌<◌, [], true, false, length, All, IfOk};
ghost use Rattle.disk_ring.specs.Rings.{IsNewRing, AllOfRoom};
ghost use Rattle.disk_ring.specs.Places.{IsFirst};

use crate::plays::Part;
use crate::ring_in::RingIn;
use crate::ring_out::RingOut;
use crate::ring_table::{Place, RingTable};
use crate::roomy::Roomy;
use atomic_table::Table;
use ses_io::NoMemory;
use std::alloc::Global;
use std::sync::Arc;

// The table of a new ring, and its first seat.
fn new_ring_table<T: Roomy + Drop>(
    alloc: Global,
    husks: Vec<Box<T>>,
    room: u64,
) -> Result<(RingTable<T>, Place<T>), NoMemory>
    requires some { 0 < length husks.items }
    requires room { AllOfRoom T.room_of room husks.items }
    ensures { IfOk result (λ r.
        IsFirst r.0.shared.table_id room (length husks.items) r.1) }
{
    match Table::new(alloc, &[0, 0], husks, &room) {
        Ok(made) => Ok(made),
        Err(_) => Err(NoMemory),
    }
}

// The consumer's seat, cut off the first one, which is the producer's from then on.
fn part<T: Roomy>(ring_table: &RingTable<T>, first: &mut Place<T>) -> Place<T>
    requires table { first.old.table_id ≡ ring_table.now.shared.table_id }
    requires words { ring_table.now.shared.table_id.words ≡ 2 }
    requires both { (first.old.me.0.sends ≡ true) × (first.old.me.0.takes ≡ true) }
    ensures same { first.new.table_id ≡ first.old.table_id }
    ensures other { result.table_id ≡ first.old.table_id }
    ensures producer { first.new.me ≡ (record first.old.me.0 { takes = false }, first.old.me.1) }
    ensures consumer { result.me ≡ (record first.old.me.0 { sends = false }, []) }
{
    ring_table.shared.split_seat::<Part>(first)
}

/// The two ends of a new ring of `depth` boxes, which begins with these husks, all of one room.
pub fn ring<T: Roomy + Drop>(
    alloc: Global,
    depth: u32,
    husks: Vec<Box<T>>,
) -> Result<(RingIn<T>, RingOut<T>), NoMemory>
    requires some { 0 < depth }
    requires husks { length husks.items ≡ depth }
    requires room { (room : ℕ) × AllOfRoom T.room_of room husks.items }
    ensures ends { IfOk result (λ r. IsNewRing depth r.0 r.1) }
    ensures room { IfOk result
        (λ r. (room : ℕ) → AllOfRoom T.room_of room husks.items → r.0.room ≡ room) }
{
    let room = u64::from(husks[0].room());
    let (ring_table, mut first) = new_ring_table(alloc, husks, room)?;
    let second = part(&ring_table, &mut first);
    let ours = Arc::new(alloc, ring_table)?;
    let theirs = Arc::try_clone(&ours)?;
    let sender = RingIn {
        ring_table: ours,
        seat: first,
        count: 0,
        depth: u64::from(depth),
        got: 0,
        word: 0,
    };
    let receiver = RingOut {
        ring_table: theirs,
        seat: second,
        count: 0,
        depth: u64::from(depth),
        word: 0,
    };
    Ok((sender, receiver))
}
