//! A butler over real rings, with the edition that it is given and the other ends of its rings.
ghost use Rattle.std.specs.Prelude.{◌≡◌, ◌<◌, ◌≤◌};
ghost use Rattle.edition_log.specs.Entered.{Entered};

use crate::opening::{Opened, open_session};
use crate::rings::{Rings, new_rings};
use crate::track_ends::{PutEnd, Taken, TrackEnds};
use butler::{Butler, ButlerFault, Turn};
use edition_log::Edition;
use piece_item::Ack;
use ses_io::{Media, NoMemory};
use session_model::Session;
use std::alloc::Global;
use std::marker::Model;

/// A butler, and the other ends of its rings. Contracts see the session that was opened and the edits that it entered last.
#[derive(Drop)]
pub(crate) struct ButlerFixture<M: Media> {
    butler: Butler<M>,
    // The session as it was opened.
    opened: Session,
    edition: Edition,
    // How many of the edition's edits the butler entered.
    entered: u32,
    tracks: Vec<TrackEnds>,
    acks: PutEnd<Ack>,
}

impl<M: Media> Model for ButlerFixture<M> {
    ghost use Rattle.std.specs.Prelude.{◌≡◌};
    ghost use Rattle.edition_log.specs.Entered.{Entered};
    ghost use Rattle.capture_tests.specs.Bench.{IsServed, entered_by};

    ghost Value = { Entered };

    ghost view = { λ b. entered_by b.opened b.edition b.entered };

    ghost invariant = { λ b. IsServed b.opened b.butler b.edition b.entered × (b.acks.room ≡ 0) };
}

impl<M: Media> ButlerFixture<M> {
    /// A new butler of the session of a text, which is asked for so many cycles.
    pub(crate) fn new(alloc: Global, text: &[u8], first: M, cycles: u32) -> Option<ButlerFixture<M>>
        requires some { 0 < cycles }
        requires near { cycles ≤ 100000 }
    {
        let mut media = first;
        let o = open_session(alloc, text, &mut media)?;
        let Ok(rings) = new_rings(alloc, &o.session) else {
            return None;
        };
        let Opened {
            session,
            edition,
            sources,
        } = o;
        let Rings { ends, tracks, acks } = rings;
        let Ok(butler) = Butler::new(alloc, media, sources, &edition, cycles, ends) else {
            return None;
        };
        Some(ButlerFixture {
            butler,
            opened: session,
            edition,
            entered: 0,
            tracks,
            acks,
        })
    }

    /// A turn of at most so many items.
    pub(crate) fn turn(&mut self, most: u32) -> Result<Turn, ButlerFault>
        ghost at: { Entered }
        requires entered { self.old ≡ at }
        requires some { 0 < most }
    {
        let answer = self.butler.turn(&self.edition, most);
        self.entered = self.edition.number();
        answer
    }

    /// Takes the next item of a track.
    pub(crate) fn take(
        &mut self,
        alloc: Global,
        track: u32,
        samples: &[i32],
    ) -> Result<Taken, NoMemory> {
        let track = track as usize;
        if track >= self.tracks.len() {
            return Ok(Taken::Nothing);
        }
        self.tracks[track].take(alloc, samples)
    }

    /// Puts a recorded block of a track, by its take and its index; false where its ring doesn't take it.
    pub(crate) fn put(
        &mut self,
        alloc: Global,
        track: u32,
        place: (u32, u32),
        samples: &[i32],
    ) -> Result<bool, NoMemory> {
        let track = track as usize;
        if track >= self.tracks.len() {
            return Ok(false);
        }
        self.tracks[track].put(alloc, place, samples)
    }

    /// Closes the ring of a track's recorded blocks.
    pub(crate) fn close(&mut self, track: u32) {
        let track = track as usize;
        if track < self.tracks.len() {
            self.tracks[track].close();
        }
    }

    /// Closes the ring of acknowledgements.
    pub(crate) fn close_acks(&mut self) {
        self.acks.close();
    }

    /// Whether the butler is over.
    pub(crate) fn over(&self) -> bool {
        self.butler.over()
    }

    /// The media as the butler leaves it.
    pub(crate) fn media(self) -> M {
        self.butler.parts().media
    }
}
