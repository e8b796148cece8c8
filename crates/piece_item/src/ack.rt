//! An acknowledgement: how far the process came, told to butler and control.
ghost use Rattle.std.specs.Prelude.{◌≡◌, IfOk};
ghost use Rattle.piece_item.specs.Blanks.{blank_ack};

use disk_ring::Roomy;
use ses_io::NoMemory;
use std::alloc::Global;

/// What the process tells after an entry of its journal (own).
#[derive(Clone, Copy, Debug, PartialEq, Eq)]
pub struct Ack {
    /// The number of the entry, from 1.
    pub cycle: u32,
    /// The generation of the entry's edition.
    pub generation: u32,
    /// The next block of that generation: how many of its cycles rolled so far.
    pub next: u32,
    /// The edition up to which the entry is settled.
    pub settled: u32,
}

impl Roomy for Ack {
    ghost room_of = { λ _. 0 };

    fn room(&self) -> u32 {
        0
    }
}

impl Ack {
    /// An empty box for an acknowledgement: its numbers are 0.
    pub fn blank(alloc: Global) -> Result<Box<Ack>, NoMemory>
        ensures { IfOk result (λ ack. ack.value ≡ blank_ack) }
    {
        let ack = Ack {
            cycle: 0,
            generation: 0,
            next: 0,
            settled: 0,
        };
        Ok(Box::new(alloc, ack)?)
    }
}
