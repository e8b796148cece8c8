//! The process's end of the ring of grants: how many cycles it may make. It is given nothing to wait with.
ghost use Rattle.std.specs.Prelude.{◌≡◌, ◌≤◌, [], true, false};
ghost use Rattle.cycle_grants.specs.Grants.{grants_in, newest};
ghost use Rattle.cycle_grants.specs.Allowance.{Awaits, TakesAll, TakesNone, TakesOne};
ghost use Rattle.cycle_grants.specs.Allowance.{FindsInTime, TriesInVain};

use disk_ring::{Nothing, RingOut};
use run_world::Grant;
use std::marker::Model;
use std::thread;

/// More than any run has cycles: what grants allow is counted up to here.
const MANY: u32 = 200_000;

/// The end that takes grants. It knows how many cycles they allow together, in which edition or a
/// newer one, and whether it still waits for them.
#[derive(Drop)]
pub struct Allowance {
    from: RingOut<Grant>,
    husk: Option<Box<Grant>>,
    allowed: u32,
    floor: u32,
    waits: bool,
}

impl Model for Allowance {
    ghost use Rattle.std.specs.Prelude.{IsSome};
    ghost use Rattle.cycle_grants.specs.Allowance.{AllowanceState, Counts};

    ghost Value = { AllowanceState };

    ghost view = { λ a. record { from = a.from; waits = a.waits } };

    ghost invariant = { λ a. IsSome a.husk × Counts a.from a.allowed a.floor };
}

/// What an allowance gives back: its end of the ring, and the spare box.
#[derive(Drop)]
pub struct AllowanceParts {
    pub from: RingOut<Grant>,
    pub husk: Box<Grant>,
}

impl Allowance {
    /// Of a ring of which nothing was taken yet, with a spare box.
    pub fn new(from: RingOut<Grant>, husk: Box<Grant>) -> Allowance
        requires fresh { from.received ≡ [] }
        requires room { from.room ≡ 0 }
        ensures { result ≡ record { from = from; waits = true } }
    {
        Allowance {
            from,
            husk: Some(husk),
            allowed: 0,
            floor: 0,
            waits: true,
        }
    }

    // Takes one grant, or finds none. Whether it took one.
    fn take_one(&mut self) -> bool
        ensures one { result ≡ true → TakesOne self.old self.new }
        ensures none { result ≡ false → TakesNone self.old self.new }
    {
        let Some(husk) = self.husk.take() else {
            unreachable!()
        };
        match self.from.take(husk) {
            Ok(grant) => {
                self.allowed = (self.allowed + grant.cycles.min(MANY)).min(MANY);
                self.floor = self.floor.max(grant.edition);
                self.husk = Some(grant);
                true
            }
            Err(Nothing::Empty { husk, tail: _ } | Nothing::Closed { husk, tail: _ }) => {
                self.husk = Some(husk);
                false
            }
        }
    }

    // Takes grants until there is none.
    fn take_all(&mut self)
        ensures { TakesAll self.old self.new }
    {
        loop {
            if !self.take_one() {
                return;
            }
        }
    }

    // Tries so many times to take one more. Whether there was one.
    fn try_again(&mut self, patience: u64) -> bool
        ensures one { result ≡ true → FindsInTime patience self.old self.new }
        ensures none { result ≡ false → TriesInVain patience self.old self.new }
    {
        for _try in 0..patience {
            thread::yield_now();
            if self.take_one() {
                return true;
            }
        }
        false
    }

    /// Takes grants until there is none, where so many cycles were made. Where no further cycle is
    /// allowed then, one more grant is tried for so many times, and again so many times where it
    /// doesn't suffice; when these tries run out once, none is waited for any more. It takes no
    /// memory, no lock and no wait.
    pub fn await_cycle(&mut self, made: u32, patience: u64)
        requires { made ≤ 100000 }
        ensures { Awaits patience made self.old self.new }
    {
        self.take_all();
        while self.waits && self.allowed <= made {
            if !self.try_again(patience) {
                self.waits = false;
                return;
            }
            self.take_all();
        }
    }

    /// The newest edition of a grant that was received, 0 before the first.
    pub fn floor(&self) -> u32
        ensures { result ≡ newest (grants_in self.now.from) }
    {
        self.floor
    }

    /// Gives its end of the ring and the spare box back.
    pub fn parts(self) -> AllowanceParts
        ensures { result.from ≡ self.from }
    {
        let Allowance { from, husk, .. } = self;
        let Some(husk) = husk else { unreachable!() };
        AllowanceParts { from, husk }
    }
}
