//! The other ends of the rings of a track: where its items arrive, and where nothing is recorded.
ghost use Rattle.std.specs.Prelude.{◌≡◌};

use disk_ring::{Nothing, RingIn, RingOut};
use piece_item::{Item, Kind, TakeBlock};
use ses_io::NoMemory;
use std::alloc::Global;
use std::marker::Model;

/// What is found where an item is taken: its kind, and whether it has the samples that are wanted.
#[derive(Clone, Copy, Debug, PartialEq, Eq)]
pub(crate) enum Taken {
    Item(Kind, bool),
    /// No item is there yet.
    Nothing,
    /// No item ever comes.
    Closed,
}

/// The other ends of a track's two rings.
#[derive(Drop)]
pub(crate) struct TrackEnds {
    play: RingOut<Item>,
    // Nothing is put here; it is held so that the ring stays open.
    put: RingIn<TakeBlock>,
    /// The samples of a block of the track.
    samples: u32,
}

impl Model for TrackEnds {
    ghost use Rattle.std.specs.Prelude.{◌≡◌, ℕ};

    ghost Value = { ℕ };

    ghost view = { λ t. t.samples };

    ghost invariant = { λ t. t.play.room ≡ t.samples };
}

fn seen(taken: Result<Box<Item>, Nothing<Item>>, samples: &[i32]) -> Taken {
    match taken {
        Ok(item) => Taken::Item(item.kind, item.samples.as_slice() == samples),
        Err(Nothing::Empty { .. }) => Taken::Nothing,
        Err(Nothing::Closed { .. }) => Taken::Closed,
    }
}

impl TrackEnds {
    pub(crate) fn new(play: RingOut<Item>, put: RingIn<TakeBlock>, samples: u32) -> TrackEnds
        requires { play.room ≡ samples }
    {
        TrackEnds { play, put, samples }
    }

    /// Takes the next item.
    pub(crate) fn take(&mut self, alloc: Global, samples: &[i32]) -> Result<Taken, NoMemory> {
        let husk = Item::blank(alloc, self.samples)?;
        Ok(seen(self.play.take(husk), samples))
    }
}
