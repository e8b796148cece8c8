//! Up to 64 places of routes, each at most once, in the order in which they were found.
ghost use Rattle.std.specs.Prelude.{◌≡◌, ◌<◌, ◌≤◌, [], ◌∷◌, ◌++◌, length, false, slice_get, if◌then◌else◌};
ghost use Rattle.route_graph.specs.Places.{stands, AreOnce, with_place};

use std::marker::Model;

/// Places of routes, each at most once. Contracts see their list.
#[derive(Drop)]
pub(crate) struct Places {
    list: [u32; 64],
    long: usize,
    among: [bool; 64],
}

impl Model for Places {
    ghost use Rattle.std.specs.Prelude.{ℕ, List, take};
    ghost use Rattle.route_graph.specs.Places.{IsKept};

    ghost Value = { List ℕ };

    ghost view = { λ p. take p.long p.list };

    ghost invariant = { λ p. IsKept p.list p.long p.among };
}

impl Places {
    /// No place.
    pub fn new() -> Places
        ensures none { result ≡ [] }
        ensures once { AreOnce result }
    {
        Places {
            list: [0; 64],
            long: 0,
            among: [false; 64],
        }
    }

    /// The place that was found at that turn, from 0.
    pub fn get(&self, turn: usize) -> Option<u32>
        ensures place { result ≡ slice_get self.now turn }
        ensures once { AreOnce self.now }
    {
        self.as_slice().get(turn).copied()
    }

    pub fn has(&self, place: u32) -> bool
        requires { place < 64 }
        ensures stands { result ≡ stands self.now place }
        ensures once { AreOnce self.now }
    {
        self.among[place as usize]
    }

    /// Adds a place at the end.
    pub fn push(&mut self, place: u32)
        requires low { place < 64 }
        requires fresh { stands self.old place ≡ false }
        ensures places { self.new ≡ self.old ++ place ∷ [] }
        ensures once { AreOnce self.new }
    {
        self.list[self.long] = place;
        self.long += 1;
        self.among[place as usize] = true;
    }

    /// Adds a place at the end, unless it stands already.
    pub fn note(&mut self, place: u32)
        requires { place < 64 }
        ensures places { self.new ≡ with_place self.old place }
        ensures once { AreOnce self.new }
    {
        if !self.has(place) {
            self.push(place);
        }
    }

    pub fn as_slice(&self) -> &[u32]
        ensures places { result.now ≡ self.now }
        ensures once { AreOnce self.now }
    {
        &self.list[..self.long]
    }
}
