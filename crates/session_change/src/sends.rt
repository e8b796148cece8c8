//! The sends of a route, which stand in a list with a fixed room.
ghost use Rattle.std.specs.Prelude.{◌≡◌, ◌==◌, ◌<◌, ◌≤◌, ◌∷◌, [], ◌++◌, length, position, remove, slice_index_or, IfSome};
ghost use Rattle.session_model.specs.declared.route.SendLink.{SendLink as Link};
ghost use Rattle.engine_model.specs.Changes.{with_send, without_send};

use session_model::{SendLink, SendList};

// The index of the first send to a route.
fn index_of(links: &[SendLink], to: u32) -> Option<usize>
    ensures index { result ≡ position (λ l. l.to == to) links.now }
    ensures bound { IfSome result (λ i. i < length links.now) }
{
    links.iter().position(|l| l.to == to)
}

/// Puts a send in the place of the one to the same route, or behind all others.
pub(crate) fn put_send(sends: &mut SendList, link: SendLink)
    requires { length (with_send link sends.old.items) ≤ sends.old.room }
    ensures { sends.new ≡ record sends.old { items = with_send link sends.old.items } }
{
    match index_of(sends.as_slice(), link.to) {
        Some(i) => sends.as_mut_slice()[i] = link,
        None => sends.push(link),
    }
}

// Moves the send of an index to the end; those after it go down by one.
fn put_at_end(links: &mut [SendLink], i: usize)
    requires { i < length links.old }
    ensures { (d : Link) → links.new ≡ remove links.old i ++ slice_index_or links.old i d ∷ [] }
{
    links[i..].rotate_left(1);
}

/// Takes out all that is sent to a route; the others keep their order.
pub(crate) fn take_send(sends: &mut SendList, to: u32)
    ensures { sends.new ≡ record sends.old { items = without_send to sends.old.items } }
{
    while let Some(i) = index_of(sends.as_slice(), to) {
        put_at_end(sends.as_mut_slice(), i);
        sends.pop();
    }
}
