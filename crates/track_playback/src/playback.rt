//! What the process keeps of one track beside its ring, and how it looks at the track.
ghost use Rattle.std.specs.Prelude.{◌≡◌, true, false, List, length};
ghost use Rattle.engine_model.specs.Cycle.{has_piece};
ghost use Rattle.play_window.specs.Offers.{Offered, kinds};
ghost use Rattle.play_window.specs.WindowState.{IsWindowOf, IsNoEarlier};
ghost use Rattle.track_playback.specs.Answers.{is_there};
ghost use Rattle.track_playback.specs.SpareBoxes.{HasHusk, HasRoom, HoldsTheLast};
ghost use Rattle.track_playback.specs.Looks.{Looks};
ghost use Rattle.track_playback.specs.Played.{ShowsOffers};

use crate::looking::{offer, take_all};
use crate::play_position::PlayPosition;
use disk_ring::RingOut;
use piece_item::Item;
use play_window::Window;
use std::mem;

/// The one box of a track that is in no ring and no window.
#[derive(Drop)]
pub enum SpareBox {
    /// A box that holds nothing any more.
    Husk(Box<Item>),
    /// An item that was received and can't be offered yet.
    Held(Box<Item>),
    /// None: a look has it.
    Lent,
}

/// A track's window, its spare box, and what the last look found.
#[derive(Drop)]
pub struct TrackPlayback {
    pub window: Window,
    pub spare: SpareBox,
    /// How many items had been received when the last look ended.
    pub tail: u64,
    /// Whether the ring has answered Closed.
    pub closed: bool,
}

impl TrackPlayback {
    /// One look: a held item that may be offered now is offered, then items are taken and offered
    /// until the ring has no more, or one is held.
    pub(crate) fn look(&mut self, ring: &mut RingOut<Item>, at: PlayPosition)
        requires room { ring.old.room ≡ self.old.window.samples }
        requires depth { self.old.window.depth ≡ at.depth }
        requires spare { HasRoom self.old.window.samples self.old.spare }
        requires since { IsNoEarlier self.old.window.generation self.old.window.next
            at.generation at.next }
        requires last { HoldsTheLast ring.old self.old.spare }
        requires tail { self.old.tail ≡ length ring.old.received }
        requires closed { self.old.closed ≡ ring.old.ended }
        ensures { Looks at ring.old self.old ring.new self.new }
    {
        let spare = mem::replace(&mut self.spare, SpareBox::Lent);
        let husk = match spare {
            SpareBox::Held(item) => {
                if at.holds(item.kind) {
                    self.spare = SpareBox::Held(item);
                    return;
                }
                offer(&mut self.window, at, item)
            }
            SpareBox::Husk(husk) => husk,
            SpareBox::Lent => unreachable!(),
        };
        let (spare, closed) = take_all(ring, &mut self.window, at, husk);
        self.spare = spare;
        self.closed = closed;
        self.tail = ring.received();
    }

    /// Whether its spare box may be filled.
    pub(crate) fn has_husk(&self) -> bool
        ensures husk { result ≡ true → HasHusk self.now.spare }
        ensures none { result ≡ false → ¬ HasHusk self.now.spare }
    {
        matches!(self.spare, SpareBox::Husk(_))
    }

    /// Whether the piece that is played next is in the window.
    pub(crate) fn is_there(&self, at: PlayPosition) -> bool
        requires { IsNoEarlier self.now.window.generation self.now.window.next
            at.generation at.next }
        ensures { (given : List Offered) → IsWindowOf given self.now.window
            → result ≡ has_piece at.generation at.next (kinds given) }
    {
        self.window.piece(at.generation, at.next).is_some()
    }
}
