//! The journal of a run: one entry a cycle, in order, with room reserved for all cycles that were asked.
ghost use Rattle.std.specs.Prelude.{◌≡◌, ◌<◌, ◌≤◌, [], ◌∷◌, ◌++◌, length, IfOk};

use crate::entry::{Entry, State};
use arrayvec::ArrayVec;
use ses_io::{FixedList, NoMemory};
use std::alloc::Global;
use std::marker::Model;

/// The entries of a run, the first one first. Contracts see them as a list with its room.
#[derive(Drop)]
pub struct Journal {
    entries: FixedList<Entry>,
}

impl Model for Journal {
    ghost use Rattle.ses_io.specs.FixedList.{Listed};
    ghost use Rattle.cycle_journal.specs.declared.entry.Entry.{Entry};

    ghost Value = { Listed Entry };

    ghost view = { λ j. j.entries };
}

// Fills a list up with blank entries, so that each page of its memory is written once.
fn touch(entries: &mut FixedList<Entry>)
    requires { entries.old.items ≡ [] }
    ensures full { length entries.new.items ≡ entries.old.room }
    ensures room { entries.new.room ≡ entries.old.room }
{
    for made in 0..entries.room() {
        entries.push(Entry {
            edition: 0,
            settled: 0,
            state: State::Stopped,
            notes: ArrayVec::new(),
        });
    }
}

// Takes all entries out again.
fn empty(entries: &mut FixedList<Entry>)
    requires { length entries.old.items ≡ entries.old.room }
    ensures { entries.new ≡ record entries.old { items = [] } }
{
    for taken in 0..entries.room() {
        let _blank = entries.pop();
    }
}

impl Journal {
    /// An empty journal with room for so many cycles, 1..100,000. Its memory was written once, so
    /// that no entry of a cycle is the first to touch a page of it.
    pub fn new(alloc: Global, cycles: u32) -> Result<Journal, NoMemory>
        ensures { IfOk result (λ j. j ≡ record { items = []; room = cycles }) }
    {
        let mut entries = FixedList::new(alloc, cycles)?;
        touch(&mut entries);
        empty(&mut entries);
        Ok(Journal { entries })
    }

    /// Adds an entry at the end. It takes no memory.
    pub fn note(&mut self, e: Entry)
        requires { length self.old.items < self.old.room }
        ensures { self.new ≡ record self.old { items = self.old.items ++ e ∷ [] } }
    {
        self.entries.push(e);
    }

    /// The entries made so far.
    pub fn entries(&self) -> &[Entry]
        ensures entries { result.now ≡ self.now.items }
        ensures within { length self.now.items ≤ self.now.room }
    {
        self.entries.as_slice()
    }

    /// How many entries it has room for in all, in cycles.
    pub fn room(&self) -> u32
        ensures { result ≡ self.now.room }
    {
        self.entries.room()
    }
}
