//! The boxes of a window: the piece of block s stands in box s % depth.
ghost use Rattle.std.specs.Prelude.{◌≡◌, ℕ, ◌<◌, ◌%◌, length, slice_get, slice_set, Some, None, option_map, IfOk, IfSome, All};
ghost use Rattle.disk_ring.specs.Rings.{AllOfRoom};
ghost use Rattle.piece_item.specs.Views.{item_of};
ghost use Rattle.piece_item.specs.Blanks.{blank_item};
ghost use Rattle.play_window.specs.WindowState.{piece_in};

use piece_item::{Item, Kind};
use ses_io::NoMemory;
use std::alloc::Global;
use std::mem;

/// So many empty boxes with so many samples each.
pub(crate) fn blanks(alloc: Global, count: u32, samples: u32) -> Result<Vec<Box<Item>>, NoMemory>
    ensures count { IfOk result (λ boxes. length boxes.items ≡ count) }
    ensures blank { IfOk result (λ boxes. All (λ b. b.value ≡ blank_item samples) boxes.items) }
{
    let mut boxes = Vec::new(alloc);
    for made in 0..count {
        boxes.push(Item::blank(alloc, samples)?)?;
    }
    Ok(boxes)
}

/// Puts an item into the box of block `seq`, and gives the box that stood there.
pub(crate) fn swap(boxes: &mut [Box<Item>], depth: u32, seq: u32, item: Box<Item>) -> Box<Item>
    requires some { 0 < depth }
    requires depth { length boxes.old ≡ depth }
    ensures boxes { boxes.new ≡ slice_set boxes.old (seq % depth) item }
    ensures husk { slice_get boxes.old (seq % depth) ≡ Some result }
{
    mem::replace(&mut boxes[(seq % depth) as usize], item)
}

/// The piece of block `seq` of a generation, where the box of that block has it.
pub(crate) fn look(boxes: &[Box<Item>], depth: u32, generation: u32, seq: u32) -> Option<&Item>
    requires some { 0 < depth }
    requires depth { length boxes.now ≡ depth }
    ensures piece { option_map (λ item. item_of item.now) result
        ≡ piece_in generation seq (slice_get boxes.now (seq % depth)) }
    ensures room { (room : ℕ) → AllOfRoom (λ item. length item.samples.items) room boxes.now
        → IfSome result (λ item. length item.now.samples.items ≡ room) }
{
    let item: &Item = &boxes[(seq % depth) as usize];
    match item.kind {
        Kind::Piece {
            generation: of,
            seq: at,
            ..
        } if of == generation && at == seq => Some(item),
        _ => None,
    }
}
