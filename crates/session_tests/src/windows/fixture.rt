//! A window of one sample a box, which is asked for no block that it passed.
ghost use Rattle.std.specs.Prelude.{◌≡◌, ◌<◌, length, IfOk, IsTrue};
ghost use Rattle.piece_item.specs.Views.{kind_of};
ghost use Rattle.play_window.specs.Offers.{IsNear};
ghost use Rattle.play_window.specs.WindowState.{IsNoEarlier};

use piece_item::{Item, Kind};
use play_window::{Offer, Window};
use ses_io::NoMemory;
use std::alloc::Global;
use std::marker::Model;

/// A window, and what the last offer asked for.
#[derive(Drop)]
pub(crate) struct WindowFixture {
    window: Window,
    depth: u32,
    generation: u32,
    next: u32,
}

impl Model for WindowFixture {
    ghost use Rattle.std.specs.Prelude.{◌≡◌, ⊤};
    ghost use Rattle.play_window.specs.WindowState.{IsNoEarlier};

    ghost Value = { ⊤ };

    ghost view = { λ f. tt };

    ghost invariant = { λ f. (f.window.samples ≡ 1) × (f.window.depth ≡ f.depth)
        × IsNoEarlier f.window.generation f.window.next f.generation f.next };
}

// An item with this one sample.
fn item(alloc: Global, kind: Kind, sample: i32) -> Result<Box<Item>, NoMemory>
    ensures kind { IfOk result (λ item. item.value.kind ≡ kind) }
    ensures samples { IfOk result (λ item. length item.value.samples.items ≡ 1) }
{
    let mut item = Item::blank(alloc, 1)?;
    item.fill_as(kind).copy_from_slice(&[sample]);
    Ok(item)
}

// Whether an item may be offered there to a window of so many boxes.
fn is_near(depth: u32, at: (u32, u32), kind: Kind) -> bool
    ensures { IsTrue result → IsNear depth at.0 at.1 (kind_of kind) }
{
    match kind {
        Kind::Blank => true,
        Kind::Piece {
            generation,
            seq,
            ..
        } => generation != at.0 || u64::from(seq) < u64::from(at.1) + u64::from(depth),
        Kind::Settled {
            generation,
            from,
            ..
        } => generation != at.0 || from <= at.1,
    }
}

// Whether a block of a generation is no earlier than another of its own.
fn is_no_earlier(last: (u32, u32), at: (u32, u32)) -> bool
    ensures { IsTrue result → IsNoEarlier last.0 last.1 at.0 at.1 }
{
    last.0 < at.0 || (last.0 == at.0 && last.1 <= at.1)
}

impl WindowFixture {
    pub(crate) fn new(alloc: Global, depth: u32) -> Result<WindowFixture, NoMemory>
        requires { 0 < depth }
    {
        Ok(WindowFixture {
            window: Window::new(alloc, depth, 1)?,
            depth,
            generation: 0,
            next: 0,
        })
    }

    pub(crate) fn has_one_sample(&self) -> bool {
        self.window.samples() == 1
    }

    /// Offers an item at a generation and its next block, and tells whether it was taken in; None where it may not be offered.
    pub(crate) fn offer(
        &mut self,
        alloc: Global,
        at: (u32, u32),
        kind: Kind,
        sample: i32,
    ) -> Result<Option<bool>, NoMemory> {
        if !is_no_earlier((self.generation, self.next), at) || !is_near(self.depth, at, kind) {
            return Ok(None);
        }
        let item = item(alloc, kind, sample)?;
        let offer = self.window.offer(at.0, at.1, item);
        self.generation = at.0;
        self.next = at.1;
        Ok(Some(matches!(offer, Offer::Husk(_))))
    }

    /// The playlist edition and the sample of a block, where it has it.
    pub(crate) fn heard(&self, generation: u32, seq: u32) -> Option<(u32, i32)> {
        if generation < self.generation {
            return None;
        }
        let item = self.window.piece(generation, seq)?;
        let Kind::Piece { touched, .. } = item.kind else {
            return None;
        };
        let sample = item.samples.as_slice().first()?;
        Some((touched, *sample))
    }

    /// The mark in force; None where that may not be asked.
    pub(crate) fn settled(&self, generation: u32, next: u32) -> Option<u32> {
        if !is_no_earlier((self.generation, self.next), (generation, next)) {
            return None;
        }
        Some(self.window.settled(generation, next))
    }
}
