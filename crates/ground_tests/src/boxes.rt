//! Empty boxes, a box that is filled in place, and its way through a ring.
ghost use Rattle.std.specs.Prelude.{◌≡◌, false, length, IfOk};
ghost use Rattle.disk_ring.specs.Rings.{IsNewRing};

use disk_ring::{RingIn, RingOut, Roomy, ring};
use piece_item::{Item, Kind, TakeBlock};
use ses_io::NoMemory;
use std::alloc::Global;

const PIECE: Kind = Kind::Piece {
    track: 1,
    generation: 2,
    seq: 3,
    touched: 4,
};

fn is_item(item: &Item, kind: Kind, samples: &[i32]) -> bool {
    item.kind == kind && item.samples.as_slice() == samples && item.room() == 3
}

fn is_blank_block(block: &TakeBlock) -> bool {
    (block.take, block.index, block.room()) == (0, 0, 2)
        && block.samples.as_slice() == [0, 0].as_slice()
}

fn item_has_zeros(alloc: Global) -> bool {
    match Item::blank(alloc, 3) {
        Ok(item) => is_item(&item, Kind::Blank, &[0, 0, 0]),
        Err(_) => false,
    }
}

fn block_has_zeros(alloc: Global) -> bool {
    match TakeBlock::blank(alloc, 2) {
        Ok(block) => is_blank_block(&block),
        Err(_) => false,
    }
}

// A box that is filled in place.
fn piece(alloc: Global) -> Result<Box<Item>, NoMemory>
    ensures { IfOk result (λ item. length item.value.samples.items ≡ 3) }
{
    let mut item = Item::blank(alloc, 3)?;
    item.fill_as(PIECE).copy_from_slice(&[5, -6, 7]);
    Ok(item)
}

// A ring of one box, made of this husk.
fn ring_of(alloc: Global, husk: Box<Item>) -> Result<(RingIn<Item>, RingOut<Item>), NoMemory>
    ensures ends { IfOk result (λ r. IsNewRing 1 r.0 r.1) }
    ensures room { IfOk result (λ r. r.0.room ≡ length husk.value.samples.items) }
{
    let mut husks = Vec::new(alloc);
    husks.push(husk)?;
    let (to, from) = ring(alloc, 1, husks)?;
    Ok((to, from))
}

// Whether a piece is put and taken again.
fn goes_through(
    alloc: Global,
    to: &mut RingIn<Item>,
    from: &mut RingOut<Item>,
) -> Result<bool, NoMemory>
    requires open { to.old.closed ≡ false }
    requires room { (to.old.room ≡ 3) × (from.old.room ≡ 3) }
{
    let put = to.put(piece(alloc)?).is_ok();
    match from.take(Item::blank(alloc, 3)?) {
        Ok(taken) => Ok(put && is_item(&taken, PIECE, &[5, -6, 7])),
        Err(_) => Ok(false),
    }
}

fn piece_comes(alloc: Global) -> Result<bool, NoMemory> {
    let (mut to, mut from) = ring_of(alloc, Item::blank(alloc, 3)?)?;
    goes_through(alloc, &mut to, &mut from)
}

#[test]
fn boxes_are_empty_until_they_are_filled_and_sent(rt: HostRuntime) {
    assert!(rt; item_has_zeros(rt.alloc()) && block_has_zeros(rt.alloc()));
    assert!(rt; piece_comes(rt.alloc()) == Ok(true));
}
