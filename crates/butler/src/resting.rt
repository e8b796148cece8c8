//! A butler gives its ends out and takes them back, or gives all back.
ghost use Rattle.std.specs.Prelude.{◌≡◌};
ghost use Rattle.std.specs.List.{list_all};
ghost use Rattle.butler.specs.ButlerState.{rested, resumed};
ghost use Rattle.butler.specs.Serving.{AreStocked};

use crate::butler::{Butler, Holdings};
use capture_flush::TakeFiles;
use piece_item::ButlerEnds;
use ses_io::Media;
use std::marker::Model;

/// What a butler gives back.
#[derive(Drop)]
pub struct ButlerParts<M> {
    /// The media that it read from and wrote to.
    pub media: M,
    /// The take files, which are still to be finished.
    pub files: TakeFiles,
    /// Its ends of the rings.
    pub ends: ButlerEnds,
}

/// A butler whose ends are elsewhere.
#[derive(Drop)]
pub struct Resting<M: Media> {
    holds: Holdings<M>,
}

impl<M: Media> Model for Resting<M> {
    ghost use Rattle.std.specs.Prelude.{◌≡◌, length, IsSome};
    ghost use Rattle.butler.specs.ButlerState.{Rested};

    ghost Value = { Rested M };

    ghost view = { λ r. record {
      media = r.holds.reader.media;
      sources = r.holds.reader.sources;
      room = r.holds.reader.room;
      cycles = r.holds.cycles;
      supplies = r.holds.supplies.items;
      drain = r.holds.drain;
      nexts = r.holds.nexts.items;
      entered = r.holds.entered;
      ended = r.holds.ended;
      hushed = r.holds.hushed;
      write_failed = r.holds.write_failed;
    } };

    ghost invariant = { λ r. (length r.holds.nexts.items ≡ 10001) × IsSome r.holds.husk };
}

impl<M: Media> Butler<M> {
    /// Whether every capture ring has answered Closed.
    pub fn over(&self) -> bool
        ensures { result ≡ list_all (λ r. r.ended) self.now.ends.takes.items }
    {
        self.holds.drain.ended()
    }

    /// Gives the media, the take files and the ends back as they stand.
    pub fn parts(self) -> ButlerParts<M>
        ensures media { result.media ≡ self.media }
        ensures files { result.files ≡ self.drain.files }
        ensures ends { result.ends ≡ self.ends }
    {
        let Butler { holds, ends } = self;
        let files = holds.drain.into_files();
        let media = holds.reader.media;
        ButlerParts { media, files, ends }
    }

    /// Hands the ends out, and keeps the rest.
    pub fn rest(self) -> (Resting<M>, ButlerEnds)
        ensures rested { result.0 ≡ rested self }
        ensures ends { result.1 ≡ self.ends }
        ensures stocked { AreStocked result.0.supplies result.0.drain result.1 }
    {
        let resting = Resting { holds: self.holds };
        (resting, self.ends)
    }
}

impl<M: Media> Resting<M> {
    /// The butler with these ends: two rings of each track as before, of the rooms that they had.
    pub fn resume(self, ends: ButlerEnds) -> Butler<M>
        requires stocked { AreStocked self.supplies self.drain ends }
        requires ended { ends.acks.ended ≡ self.ended }
        ensures { result ≡ resumed self ends }
    {
        Butler {
            holds: self.holds,
            ends,
        }
    }
}
