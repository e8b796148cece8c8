//! A butler over real rings, with the edition that it is given and the other ends of its rings.
ghost use Rattle.std.specs.Prelude.{◌≡◌, ◌<◌, ◌≤◌};
ghost use Rattle.edition_log.specs.Entered.{Entered};

use crate::bench::carry_out;
use crate::opening::{Opened, open_session};
use crate::rings::{Rings, new_rings};
use crate::track_ends::{Taken, TrackEnds};
use butler::{Butler, ButlerFault, Turn};
use disk_ring::RingIn;
use edition_log::Edition;
use piece_item::Ack;
use ses_io::{Media, NoMemory};
use session_model::Session;
use std::alloc::Global;
use std::marker::Model;

/// A butler, and the other ends of its rings. Contracts see the session that was opened and the edits that it entered last.
#[derive(Drop)]
pub(crate) struct ButlerFixture<M: Media> {
    butler: Butler<M>,
    // The session as it was opened.
    opened: Session,
    edition: Edition,
    // How many of the edition's edits the butler entered.
    entered: u32,
    tracks: Vec<TrackEnds>,
    acks: RingIn<Ack>,
}

impl<M: Media> Model for ButlerFixture<M> {
    ghost use Rattle.std.specs.Prelude.{◌≡◌, false};
    ghost use Rattle.edition_log.specs.Entered.{Entered};
    ghost use Rattle.butler_tests.specs.Bench.{IsServed, entered_by};

    ghost Value = { Entered };

    ghost view = { λ b. entered_by b.opened b.edition b.entered };

    ghost invariant = { λ b. IsServed b.opened b.butler b.edition b.entered × (b.acks.room ≡ 0)
        × (b.acks.closed ≡ false) };
}

impl<M: Media> ButlerFixture<M> {
    /// A new butler of the session of a text, which is asked for so many cycles.
    pub(crate) fn new(alloc: Global, text: &[u8], first: M, cycles: u32) -> Option<ButlerFixture<M>>
        requires some { 0 < cycles }
        requires near { cycles ≤ 100000 }
    {
        let mut media = first;
        let o = open_session(alloc, text, &mut media)?;
        let Ok(rings) = new_rings(alloc, &o.session) else {
            return None;
        };
        let Opened {
            session,
            edition,
            sources,
        } = o;
        let Rings { ends, tracks, acks } = rings;
        let Ok(butler) = Butler::new(alloc, media, sources, &edition, cycles, ends) else {
            return None;
        };
        Some(ButlerFixture {
            butler,
            opened: session,
            edition,
            entered: 0,
            tracks,
            acks,
        })
    }

    /// Takes the edit of a control line in.
    pub(crate) fn edit(&mut self, line: &str) -> bool {
        matches!(carry_out(&mut self.edition, line.as_bytes()), Some(Ok(_)))
    }

    /// A turn of at most so many items.
    pub(crate) fn turn(&mut self, most: u32) -> Result<Turn, ButlerFault>
        ghost at: { Entered }
        requires entered { self.old ≡ at }
        requires some { 0 < most }
    {
        let answer = self.butler.turn(&self.edition, most);
        self.entered = self.edition.number();
        answer
    }

    /// How many tracks the session has.
    pub(crate) fn tracks(&self) -> u32 {
        self.tracks.len().min(u32::MAX as usize) as u32
    }

    /// Takes the next item of a track.
    pub(crate) fn take(
        &mut self,
        alloc: Global,
        track: u32,
        samples: &[i32],
    ) -> Result<Taken, NoMemory> {
        let track = track as usize;
        if track >= self.tracks.len() {
            return Ok(Taken::Nothing);
        }
        self.tracks[track].take(alloc, samples)
    }

    /// Tells the butler the next block of a generation.
    pub(crate) fn tell(
        &mut self,
        alloc: Global,
        generation: u32,
        next: u32,
    ) -> Result<bool, NoMemory> {
        let mut ack = Ack::blank(alloc)?;
        ack.generation = generation;
        ack.next = next;
        Ok(self.acks.put(ack).is_ok())
    }
}
