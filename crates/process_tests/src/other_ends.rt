//! The other ends of the rings of a session of one track: where its items are put, and where blocks of takes and
//! acknowledgements arrive.
ghost use Rattle.std.specs.Prelude.{◌≡◌, IfSome};
ghost use Rattle.session_model.specs.Valid.{IsValid};
ghost use Rattle.process_ends.specs.Ends.{AreNew};
ghost use Rattle.run_rings.specs.Rings.{AreNewRunEnds};

use disk_ring::{RingIn, RingOut};
use piece_item::{Ack, ButlerEnds, Item, Kind, TakeBlock};
use process_ends::ProcessEnds;
use run_rings::{RunEnds, new_ends_fit};
use ses_io::NoMemory;
use session_model::Session;
use std::alloc::Global;
use std::marker::Model;

/// The ends that a test has.
#[derive(Drop)]
pub(crate) struct OtherEnds {
    items: RingIn<Item>,
    takes: RingOut<TakeBlock>,
    to_butler: RingOut<Ack>,
    to_control: RingOut<Ack>,
    /// The samples of a block of the track.
    samples: u32,
}

impl Model for OtherEnds {
    ghost use Rattle.std.specs.Prelude.{◌≡◌, ℕ, false};

    ghost Value = { ℕ };

    ghost view = { λ o. o.samples };

    ghost invariant = { λ o. (o.items.room ≡ o.samples) × (o.items.closed ≡ false)
        × (o.takes.room ≡ o.samples) × (o.to_butler.room ≡ 0) × (o.to_control.room ≡ 0) };
}

// The next acknowledgement.
fn next_ack(alloc: Global, ring: &mut RingOut<Ack>) -> Result<Option<Ack>, NoMemory>
    requires { ring.old.room ≡ 0 }
    ensures { ring.new.room ≡ 0 }
{
    let husk = Ack::blank(alloc)?;
    match ring.take(husk) {
        Ok(ack) => Ok(Some(*ack)),
        Err(_) => Ok(None),
    }
}

impl OtherEnds {
    /// The process's ends of new rings, and the other ones, where the session has one track.
    pub(crate) fn parted(s: &Session, ends: RunEnds) -> Option<(ProcessEnds, OtherEnds)>
        requires valid { IsValid s.now }
        requires new { AreNewRunEnds s.now ends }
        ensures { IfSome result (λ r. AreNew s.now r.0) }
    {
        // Its contract is the law that new ends fit the process.
        new_ends_fit();
        let RunEnds {
            process,
            butler,
            acks,
        } = ends;
        let ButlerEnds {
            mut sends,
            mut takes,
            acks: told,
        } = butler;
        if s.tracks.len() != 1 {
            return None;
        }
        let routes = s.routes.as_slice();
        let other = OtherEnds {
            items: sends.pop(),
            takes: takes.pop(),
            to_butler: told,
            to_control: acks,
            samples: s.block * u32::from(routes[0].channels),
        };
        Some((process, other))
    }

    /// Puts an item, where these are the samples of one block and the ring isn't full.
    pub(crate) fn put(
        &mut self,
        alloc: Global,
        kind: Kind,
        samples: &[i32],
    ) -> Result<bool, NoMemory> {
        if samples.len() != self.samples as usize {
            return Ok(false);
        }
        let mut item = Item::blank(alloc, self.samples)?;
        item.fill_as(kind).copy_from_slice(samples);
        Ok(self.items.put(item).is_ok())
    }

    /// Takes the next block of a take.
    pub(crate) fn block(&mut self, alloc: Global) -> Result<Option<Box<TakeBlock>>, NoMemory> {
        let husk = TakeBlock::blank(alloc, self.samples)?;
        match self.takes.take(husk) {
            Ok(block) => Ok(Some(block)),
            Err(_) => Ok(None),
        }
    }

    /// Takes the next acknowledgement of each of the two rings.
    pub(crate) fn acks(&mut self, alloc: Global) -> Result<(Option<Ack>, Option<Ack>), NoMemory> {
        let butler = next_ack(alloc, &mut self.to_butler)?;
        let control = next_ack(alloc, &mut self.to_control)?;
        Ok((butler, control))
    }
}
