//! A list with a fixed room: only making one takes memory, and no call changes its room.
ghost use Rattle.std.specs.Prelude.{◌≡◌, ℕ, ◌-◌, ◌^◌, ◌<◌, ◌≤◌, ◌↔◌, List, [], ◌∷◌, ◌++◌, length, IsTrue, IfOk, vec_len};
ghost use Rattle.std.specs.Borrow.{sem, Lends, Array};
ghost use Rattle.ses_io.specs.FixedList.{Listed, with_items, room_of};

use crate::NoMemory;
use std::alloc::Global;
use std::marker::Model;

/// Up to `room` items in order.
#[derive(Drop)]
pub struct FixedList<T> {
    items: Vec<T>,
}

impl<T> Model for FixedList<T> {
    ghost use Rattle.std.specs.Prelude.{◌≤◌, length, vec_len};
    ghost use Rattle.ses_io.specs.FixedList.{Listed, room_of};

    ghost Value = { Listed T };

    ghost view = { λ l. record { items = l.items.items; room = room_of l.items } };

    ghost invariant = { λ l. vec_len l.items ≤ room_of l.items };
}

impl<T> FixedList<T> {
    ghost use Rattle.ses_io.specs.contracts.fixed_list.FixedList.{the_row};

    /// An empty list that has room for so many items.
    pub fn new(alloc: Global, room: u32) -> Result<Self, NoMemory>
        ensures { IfOk result (λ l. l ≡ record { items = []; room = room }) }
    {
        Ok(FixedList {
            items: Vec::with_capacity(alloc, room as usize)?,
        })
    }

    /// The items of the `Vec`, in its own memory. A `Vec` may have any capacity, so the room is
    /// what it has, up to the largest number that `room` can answer.
    pub fn from_vec(items: Vec<T>) -> Self
        requires { vec_len items < 2 ^ 32 }
        ensures items { result.items ≡ items.items }
        ensures room { result.room ≡ room_of items }
    {
        FixedList { items }
    }

    /// The items as a `Vec`, of which `from_vec` makes the same list again.
    pub fn into_vec(self) -> Vec<T>
        ensures items { result.items ≡ self.items }
        ensures room { room_of result ≡ self.room }
    {
        let FixedList { items } = self;
        items
    }

    /// How many items it has room for in all.
    pub fn room(&self) -> u32
        ensures room { result ≡ self.now.room }
        ensures within { length self.now.items ≤ self.now.room }
    {
        self.items.capacity().min(u32::MAX as usize) as u32
    }

    pub fn len(&self) -> usize
        ensures len { result ≡ length self.now.items }
        ensures within { result ≤ self.now.room }
        ensures small { self.now.room < 2 ^ 32 }
    {
        self.items.len()
    }

    pub fn is_empty(&self) -> bool
        ensures { IsTrue result ↔ (self.now.items ≡ []) }
    {
        self.items.is_empty()
    }

    pub fn is_full(&self) -> bool
        ensures full { IsTrue result ↔ (length self.now.items ≡ self.now.room) }
        ensures within { length self.now.items ≤ self.now.room }
    {
        self.len() == self.room() as usize
    }

    /// Adds an item at the end.
    pub fn push(&mut self, item: T)
        requires { length self.old.items < self.old.room }
        ensures { self.new ≡ record self.old { items = self.old.items ++ item ∷ [] } }
    {
        self.items.push_reserved(item);
    }

    /// Takes the last item out.
    pub fn pop(&mut self) -> T
        requires { 0 < length self.old.items }
        ensures items { self.old.items ≡ self.new.items ++ result ∷ [] }
        ensures room { self.new.room ≡ self.old.room }
    {
        match self.items.pop() {
            Some(item) => item,
            None => unreachable!(),
        }
    }

    pub fn as_slice(&self) -> &[T]
        ensures items { result.now ≡ self.now.items }
        ensures within { length self.now.items ≤ self.now.room }
    {
        self.items.as_slice()
    }

    /// The items, to be written in place.
    pub fn as_mut_slice(&mut self) -> &mut [T]
        ensures* writes_back { sem 𝓛
            (Lends (the_row T.row) (Array T.row 0) self.entry result (with_items self.old)) }
        ensures items { result.now ≡ self.old.items }
        ensures within { length self.old.items ≤ self.old.room }
    {
        self.items.as_mut_slice()
    }
}
