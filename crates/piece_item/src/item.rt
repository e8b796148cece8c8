//! An item of a playback ring: its kind, and the samples of one block, which are filled in place.
ghost use Rattle.std.specs.Prelude.{◌≡◌, length, IfOk};
ghost use Rattle.std.specs.Borrow.{sem, Lends, Array, i32};
ghost use Rattle.piece_item.specs.Blanks.{blank_item, filled};
ghost use Rattle.piece_item.specs.Silence.{zeros};
ghost use Rattle.piece_item.specs.contracts.item.Item.{the_row};

use crate::kind::Kind;
use crate::sample_block::SampleBlock;
use disk_ring::Roomy;
use ses_io::NoMemory;
use std::alloc::Global;

/// A box of a playback ring. It has one room for good: the number of its samples.
#[derive(Drop)]
pub struct Item {
    /// What it is.
    pub kind: Kind,
    /// One block of the track, frame by frame, channels side by side; what they are counts for a piece alone.
    pub samples: SampleBlock,
}

impl Roomy for Item {
    ghost use Rattle.std.specs.Prelude.{length};

    ghost room_of = { λ item. length item.samples.items };

    fn room(&self) -> u32 {
        self.samples.len() as u32
    }
}

impl Item {
    /// An empty box with so many samples, all of them 0.
    pub fn blank(alloc: Global, samples: u32) -> Result<Box<Item>, NoMemory>
        ensures { IfOk result (λ item. item.value ≡ blank_item samples) }
    {
        let item = Item {
            kind: Kind::Blank,
            samples: SampleBlock::new(alloc, samples)?,
        };
        Ok(Box::new(alloc, item)?)
    }

    /// Makes it an item of this kind, and lends its samples to be filled in place. Its room stays.
    pub fn fill_as(&mut self, kind: Kind) -> &mut [i32]
        ensures* written { sem 𝓛 (Lends the_row (Array i32 0) self.entry result
            (filled self.old kind)) }
        ensures samples { result.now ≡ self.old.samples.items }
    {
        self.kind = kind;
        self.samples.as_mut_slice()
    }

    /// Makes it an item of this kind whose samples are 0. Its room stays.
    pub fn hush_as(&mut self, kind: Kind)
        ensures { self.new ≡ record {
          kind = kind;
          samples = record self.old.samples { items = zeros (length self.old.samples.items) };
        } }
    {
        self.kind = kind;
        self.samples.hush();
    }
}
