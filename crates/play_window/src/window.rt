//! A window takes items in and keeps, of each block from the next on, the piece that was offered last.
ghost use Rattle.std.specs.Prelude.{◌≡◌, ◌<◌, ◌≤◌, ◌&&◌, ◌==◌, nat_lt, max, true, false, List, [], length, option_map, IfOk, IfSome};
ghost use Rattle.engine_model.specs.Cycle.{force};
ghost use Rattle.piece_item.specs.Views.{item_of, kind_of};
ghost use Rattle.play_window.specs.Offers.{Offered, IsNear, is_later, is_piece_of, kinds, piece_of};
ghost use Rattle.play_window.specs.WindowState.{WindowState, IsWindowOf, IsNoEarlier, has};
ghost use Rattle.play_window.specs.Answers.{OfferAnswers, GoesOn, TakesIn};

use crate::boxes::{blanks, look, swap};
use piece_item::{Item, Kind};
use ses_io::NoMemory;
use std::alloc::Global;
use std::marker::Model;

/// The newest piece of each block that is still to be played of one track, and its marks.
#[derive(Drop)]
pub struct Window {
    boxes: Vec<Box<Item>>,
    /// How many boxes: a remainder of 32 bits is the cheaper one.
    depth: u32,
    samples: u32,
    generation: u32,
    next: u32,
    mark: u32,
}

impl Model for Window {
    ghost use Rattle.std.specs.Prelude.{◌≡◌, ◌<◌, length};
    ghost use Rattle.disk_ring.specs.Rings.{AllOfRoom};
    ghost use Rattle.play_window.specs.WindowState.{WindowState};

    ghost Value = { WindowState };

    ghost view = { λ w. record {
      depth = w.depth;
      samples = w.samples;
      generation = w.generation;
      next = w.next;
      mark = w.mark;
      boxes = w.boxes.items;
    } };

    ghost invariant = { λ w. (0 < w.depth) × (length w.boxes.items ≡ w.depth)
        × AllOfRoom (λ item. length item.samples.items) w.samples w.boxes.items };
}

/// What a window answers to an offer: a box either way.
#[derive(Drop)]
pub enum Offer {
    /// The item was taken in: a box to be filled again.
    Husk(Box<Item>),
    /// The item is of a generation above the asked one, and comes back.
    Later(Box<Item>),
}

// Whether an item is of a generation above this one.
fn is_later(kind: Kind, generation: u32) -> bool
    ensures { result ≡ is_later generation (kind_of kind) }
{
    match kind {
        Kind::Blank => false,
        Kind::Piece { generation: of, .. } | Kind::Settled { generation: of, .. } => {
            generation < of
        }
    }
}

impl Window {
    /// A window to which nothing was offered, of so many boxes (blocks), each with so many samples.
    pub fn new(alloc: Global, depth: u32, samples: u32) -> Result<Window, NoMemory>
        requires { 0 < depth }
        ensures nothing { IfOk result (IsWindowOf []) }
        ensures depth { IfOk result (λ w. w.depth ≡ depth) }
        ensures samples { IfOk result (λ w. w.samples ≡ samples) }
    {
        Ok(Window {
            boxes: blanks(alloc, depth, samples)?,
            depth,
            samples,
            generation: 0,
            next: 0,
            mark: 0,
        })
    }

    /// How many samples each of its boxes has.
    pub fn samples(&self) -> u32
        ensures { result ≡ self.now.samples }
    {
        self.samples
    }

    /// Offers an item where block `next` of a generation is the next that is played. A newer piece of a block takes the
    /// place of the older one; a piece of a passed block or an older generation is dropped. It takes no memory.
    pub fn offer(&mut self, generation: u32, next: u32, item: Box<Item>) -> Offer
        requires since { IsNoEarlier self.old.generation self.old.next generation next }
        requires near { IsNear self.old.depth generation next (kind_of item.value.kind) }
        requires samples { length item.value.samples.items ≡ self.old.samples }
        ensures answer { OfferAnswers self.old
            (record { generation = generation; next = next; item = item_of item.value })
            item result self.new }
        ensures goes_on { GoesOn self.old generation next self.new }
    {
        if is_later(item.kind, generation) {
            return Offer::Later(item);
        }
        Offer::Husk(self.take_in(generation, next, item))
    }

    // Keeps the item where it is a piece that is still to be played, and gives a box back.
    fn take_in(&mut self, generation: u32, next: u32, item: Box<Item>) -> Box<Item>
        requires since { IsNoEarlier self.old.generation self.old.next generation next }
        requires near { IsNear self.old.depth generation next (kind_of item.value.kind) }
        requires now { is_later generation (kind_of item.value.kind) ≡ false }
        requires samples { length item.value.samples.items ≡ self.old.samples }
        ensures { TakesIn self.old
            (record { generation = generation; next = next; item = item_of item.value })
            result self.new }
    {
        match item.kind {
            Kind::Piece {
                generation: of,
                seq,
                ..
            } => {
                if of < generation || seq < next {
                    return self.pass(generation, next, 0, item);
                }
                self.keep(generation, next, seq, item)
            }
            Kind::Settled { edition, .. } => self.pass(generation, next, edition, item),
            Kind::Blank => self.pass(generation, next, 0, item),
        }
    }

    // Notes what was asked for, and the mark (0 where the item is no mark), and gives the item's box back.
    fn pass(&mut self, generation: u32, next: u32, mark: u32, item: Box<Item>) -> Box<Item>
        ensures noted { self.new ≡ record self.old {
          generation = generation;
          next = next;
          mark = max self.old.mark mark;
        } }
        ensures back { result ≡ item }
    {
        self.mark = self.mark.max(mark);
        self.generation = generation;
        self.next = next;
        item
    }

    // Keeps a piece in the box of its block, and gives the box that stood there.
    fn keep(&mut self, generation: u32, next: u32, seq: u32, item: Box<Item>) -> Box<Item>
        requires since { IsNoEarlier self.old.generation self.old.next generation next }
        requires near { IsNear self.old.depth generation next (kind_of item.value.kind) }
        requires piece { is_piece_of generation seq (kind_of item.value.kind) ≡ true }
        requires ahead { next ≤ seq }
        requires samples { length item.value.samples.items ≡ self.old.samples }
        ensures { TakesIn self.old
            (record { generation = generation; next = next; item = item_of item.value })
            result self.new }
    {
        self.generation = generation;
        self.next = next;
        swap(&mut self.boxes, self.depth, seq, item)
    }

    /// The piece of block `seq` of a generation that was offered last. None exactly where none was, or where the block is
    /// passed. The work is the same for every depth.
    #[tactic(auto, using(crate::proofs::GivenLemmas::shown, crate::proofs::GivenLemmas::hidden))]
    pub fn piece(&self, generation: u32, seq: u32) -> Option<&Item>
        requires { self.now.generation ≤ generation }
        ensures piece { (offers : List Offered) → IsWindowOf offers self.now
            → option_map (λ item. item_of item.now) result ≡ piece_of generation seq offers }
        ensures samples { IfSome result (λ item. length item.now.samples.items ≡ self.now.samples) }
    {
        if self.is_passed(generation, seq) {
            return None;
        }
        self.found(generation, seq)
    }

    // What the box of a block has of it.
    fn found(&self, generation: u32, seq: u32) -> Option<&Item>
        ensures piece { option_map (λ item. item_of item.now) result ≡ has self.now generation seq }
        ensures samples { IfSome result (λ item. length item.now.samples.items ≡ self.now.samples) }
    {
        look(&self.boxes, self.depth, generation, seq)
    }

    // Whether a block lies before the next one of the last offer.
    fn is_passed(&self, generation: u32, seq: u32) -> bool
        ensures { result ≡ (self.now.generation == generation && nat_lt seq self.now.next) }
    {
        generation == self.generation && seq < self.next
    }

    /// The greatest mark in force where block `next` of a generation is the next that is played, 0 where there is none.
    /// A mark that was taken in is in force from then on, so one number is enough.
    pub fn settled(&self, generation: u32, next: u32) -> u32
        requires { IsNoEarlier self.now.generation self.now.next generation next }
        ensures { (offers : List Offered) → IsWindowOf offers self.now
            → result ≡ force generation next (kinds offers) }
    {
        self.mark
    }
}
