//! How items go from a ring to a window.
ghost use Rattle.std.specs.Prelude.{◌≡◌, false, length};
ghost use Rattle.piece_item.specs.Views.{item_of, kind_of};
ghost use Rattle.play_window.specs.Answers.{TakesIn};
ghost use Rattle.play_window.specs.WindowState.{IsNoEarlier};
ghost use Rattle.track_playback.specs.SpareBoxes.{HasRoom};
ghost use Rattle.track_playback.specs.Looks.{EndsWith, HasAllTold, Offers, holds};

use crate::play_position::PlayPosition;
use crate::playback::SpareBox;
use disk_ring::{Nothing, RingOut};
use piece_item::Item;
use play_window::{Offer, Window};

/// Offers an item that isn't held, and gives the box that the window gives for it.
pub(crate) fn offer(window: &mut Window, at: PlayPosition, item: Box<Item>) -> Box<Item>
    requires depth { window.old.depth ≡ at.depth }
    requires since { IsNoEarlier window.old.generation window.old.next at.generation at.next }
    requires free { holds at (kind_of item.value.kind) ≡ false }
    requires samples { length item.value.samples.items ≡ window.old.samples }
    ensures { TakesIn window.old
        (record { generation = at.generation; next = at.next; item = item_of item.value })
        result window.new }
{
    match window.offer(at.generation, at.next, item) {
        Offer::Husk(husk) => husk,
        Offer::Later(_item) => unreachable!(),
    }
}

/// Takes items and offers each until the ring has no more, or one is held. It gives the box that is
/// then spare, and whether the ring has answered Closed.
pub(crate) fn take_all(
    ring: &mut RingOut<Item>,
    window: &mut Window,
    at: PlayPosition,
    husk: Box<Item>,
) -> (SpareBox, bool)
    requires room { ring.old.room ≡ window.old.samples }
    requires depth { window.old.depth ≡ at.depth }
    requires husk { length husk.value.samples.items ≡ window.old.samples }
    requires since { IsNoEarlier window.old.generation window.old.next at.generation at.next }
    ensures offers { Offers at ring.old window.old ring.new window.new result.0 }
    ensures room { HasRoom window.old.samples result.0 }
    ensures ends { EndsWith at ring.old ring.new result.0 }
    ensures told { HasAllTold ring.old ring.new result.0 }
    ensures closed { result.1 ≡ ring.new.ended }
{
    let mut husk = husk;
    loop {
        match ring.take(husk) {
            Ok(item) => {
                if at.holds(item.kind) {
                    return (SpareBox::Held(item), false);
                }
                husk = offer(window, at, item);
            }
            Err(Nothing::Empty { husk, tail: _ }) => return (SpareBox::Husk(husk), false),
            Err(Nothing::Closed { husk, tail: _ }) => return (SpareBox::Husk(husk), true),
        }
    }
}
