//! A block of a take: what was recorded of a track in one cycle.
ghost use Rattle.std.specs.Prelude.{◌≡◌, IfOk};
ghost use Rattle.piece_item.specs.Blanks.{blank_block};

use crate::silence::silence;
use disk_ring::Roomy;
use ses_io::NoMemory;
use session_model::Samples;
use std::alloc::Global;

/// A box of a capture ring. It has one room for good: the number of its samples.
#[derive(Drop)]
pub struct TakeBlock {
    /// The take's number, from 1; 0 in an empty box.
    pub take: u32,
    /// The block's place in its take, in blocks from 0.
    pub index: u32,
    /// One block of the input, frame by frame, channels side by side.
    pub samples: Samples,
}

impl Roomy for TakeBlock {
    ghost use Rattle.std.specs.Prelude.{length};

    ghost room_of = { λ block. length block.samples.items };

    fn room(&self) -> u32 {
        self.samples.len() as u32
    }
}

impl TakeBlock {
    /// An empty box with so many samples, all of them 0.
    pub fn blank(alloc: Global, samples: u32) -> Result<Box<TakeBlock>, NoMemory>
        ensures { IfOk result (λ block. block.value ≡ blank_block samples) }
    {
        let block = TakeBlock {
            take: 0,
            index: 0,
            samples: silence(alloc, samples)?,
        };
        Ok(Box::new(alloc, block)?)
    }
}
