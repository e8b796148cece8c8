//! The other ends of the rings of a track: where its items arrive, and where its recorded blocks are put.
ghost use Rattle.std.specs.Prelude.{◌≡◌, false, length, IfOk};

use disk_ring::{Nothing, RingIn, RingOut, Roomy};
use piece_item::{Item, Kind, TakeBlock};
use ses_io::NoMemory;
use session_model::Samples;
use std::alloc::Global;
use std::marker::Model;

/// An end that puts, and knows whether it was closed.
#[derive(Drop)]
pub(crate) struct PutEnd<T: Roomy> {
    end: RingIn<T>,
    closed: bool,
}

impl<T: Roomy> Model for PutEnd<T> {
    ghost use Rattle.std.specs.Prelude.{◌≡◌};
    ghost use Rattle.disk_ring.specs.Sender.{Sender};

    ghost Value = { Sender T };

    ghost view = { λ e. e.end };

    ghost invariant = { λ e. e.end.closed ≡ e.closed };
}

impl<T: Roomy + Drop> PutEnd<T> {
    pub(crate) fn new(end: RingIn<T>) -> PutEnd<T>
        requires { end.closed ≡ false }
        ensures { result.room ≡ end.room }
    {
        PutEnd { end, closed: false }
    }

    /// Puts an item, where the ring is neither closed nor full.
    pub(crate) fn put(&mut self, full: Box<T>) -> bool
        requires { T.room_of full.value ≡ self.old.room }
        ensures { self.new.room ≡ self.old.room }
    {
        if self.closed {
            return false;
        }
        self.end.put(full).is_ok()
    }

    pub(crate) fn close(&mut self)
        ensures { self.new.room ≡ self.old.room }
    {
        self.end.close();
        self.closed = true;
    }
}

/// What is found where an item is taken: its kind, and whether it has the samples that are wanted.
#[derive(Clone, Copy, Debug, PartialEq, Eq)]
pub(crate) enum Taken {
    Item(Kind, bool),
    /// No item is there yet.
    Nothing,
    /// No item ever comes.
    Closed,
}

/// The other ends of a track's two rings.
#[derive(Drop)]
pub(crate) struct TrackEnds {
    play: RingOut<Item>,
    take: PutEnd<TakeBlock>,
    /// The samples of a block of the track.
    samples: u32,
}

impl Model for TrackEnds {
    ghost use Rattle.std.specs.Prelude.{◌≡◌, ℕ};

    ghost Value = { ℕ };

    ghost view = { λ t. t.samples };

    ghost invariant = { λ t. (t.play.room ≡ t.samples) × (t.take.room ≡ t.samples) };
}

fn seen(taken: Result<Box<Item>, Nothing<Item>>, samples: &[i32]) -> Taken {
    match taken {
        Ok(item) => Taken::Item(item.kind, item.samples.as_slice() == samples),
        Err(Nothing::Empty { .. }) => Taken::Nothing,
        Err(Nothing::Closed { .. }) => Taken::Closed,
    }
}

// A list of these samples, which is full.
fn listed(alloc: Global, samples: &[i32], count: u32) -> Result<Samples, NoMemory>
    requires { length samples.now ≡ count }
    ensures { IfOk result (λ l. length l.items ≡ count) }
{
    let mut list = Samples::new(alloc, count)?;
    for at in 0..samples.len() {
        list.push(samples[at]);
    }
    Ok(list)
}

impl TrackEnds {
    pub(crate) fn new(play: RingOut<Item>, take: RingIn<TakeBlock>, samples: u32) -> TrackEnds
        requires play { play.room ≡ samples }
        requires take { take.room ≡ samples }
        requires still_open { take.closed ≡ false }
    {
        TrackEnds {
            play,
            take: PutEnd::new(take),
            samples,
        }
    }

    /// Takes the next item.
    pub(crate) fn take(&mut self, alloc: Global, samples: &[i32]) -> Result<Taken, NoMemory> {
        let husk = Item::blank(alloc, self.samples)?;
        Ok(seen(self.play.take(husk), samples))
    }

    /// Puts a recorded block of these samples, where that is one block of the track and the ring takes it.
    pub(crate) fn put(
        &mut self,
        alloc: Global,
        place: (u32, u32),
        samples: &[i32],
    ) -> Result<bool, NoMemory> {
        if samples.len() != self.samples as usize {
            return Ok(false);
        }
        let (take, index) = place;
        let samples = listed(alloc, samples, self.samples)?;
        let block = TakeBlock {
            take,
            index,
            samples,
        };
        Ok(self.take.put(Box::new(alloc, block)?))
    }

    /// Closes the ring of recorded blocks.
    pub(crate) fn close(&mut self) {
        self.take.close();
    }
}
