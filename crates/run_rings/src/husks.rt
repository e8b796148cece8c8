//! The husks that a ring begins with: its empty boxes, which travel back to be filled again.
ghost use Rattle.std.specs.Prelude.{◌≡◌, ◌<◌, ℕ, length, IfOk};
ghost use Rattle.disk_ring.specs.Rings.{AllOfRoom};
ghost use Rattle.run_rings.specs.Rings.{IsRing};

use disk_ring::{RingIn, RingOut, Roomy, ring};
use piece_item::{Ack, Item, TakeBlock};
use ses_io::NoMemory;
use std::alloc::Global;

/// What travels in the boxes of a ring.
pub trait Husk: Roomy + Drop + Sized {
    ghost room_for: { ℕ → ℕ };

    /// An empty box with so many samples, where it has any.
    fn husk(alloc: Global, samples: u32) -> Result<Box<Self>, NoMemory>
        ensures { IfOk result (λ b. Self.room_of b.value ≡ Self.room_for samples) };
}

impl Husk for Item {
    ghost room_for = { λ samples. samples };

    fn husk(alloc: Global, samples: u32) -> Result<Box<Item>, NoMemory> {
        Item::blank(alloc, samples)
    }
}

impl Husk for TakeBlock {
    ghost room_for = { λ samples. samples };

    fn husk(alloc: Global, samples: u32) -> Result<Box<TakeBlock>, NoMemory> {
        TakeBlock::blank(alloc, samples)
    }
}

impl Husk for Ack {
    ghost room_for = { λ samples. 0 };

    fn husk(alloc: Global, _samples: u32) -> Result<Box<Ack>, NoMemory> {
        Ack::blank(alloc)
    }
}

// So many of them.
fn husks<T: Husk>(alloc: Global, count: u32, samples: u32) -> Result<Vec<Box<T>>, NoMemory>
    ensures count { IfOk result (λ v. length v.items ≡ count) }
    ensures room { IfOk result (λ v. AllOfRoom T.room_of (T.room_for samples) v.items) }
{
    let mut husks = Vec::new(alloc);
    for made in 0..count {
        husks.push(T::husk(alloc, samples)?)?;
    }
    Ok(husks)
}

/// A new ring of so many boxes, each with so many samples, where it has any.
pub fn new_ring<T: Husk>(
    alloc: Global,
    depth: u32,
    samples: u32,
) -> Result<(RingIn<T>, RingOut<T>), NoMemory>
    requires { 0 < depth }
    ensures { IfOk result (λ r. IsRing depth (T.room_for samples) r.0 r.1) }
{
    let husks = husks(alloc, depth, samples)?;
    ring(alloc, depth, husks)
}
