//! Which calls of an object in memory fail, by their numbers from 1.
ghost use Rattle.std.specs.Prelude.{◌≡◌, [], ◌∷◌, ◌++◌, OnOk, OnErr};
ghost use Rattle.ses_io.specs.Calls.{PlannedCalls, counted, fails_next};

use crate::NoMemory;
use std::marker::Model;

/// The calls that were made so far, and the numbers of those that fail.
#[derive(Drop)]
pub(crate) struct CallPlan {
    calls: u64,
    fails: Vec<u64>,
}

impl Model for CallPlan {
    ghost use Rattle.ses_io.specs.Calls.{PlannedCalls};

    ghost Value = { PlannedCalls };

    ghost view = { λ p. record { calls = p.calls; fails = p.fails.items } };
}

impl CallPlan {
    /// No call was made yet.
    pub(crate) fn new(fails: Vec<u64>) -> CallPlan
        ensures { result ≡ record { calls = 0; fails = fails.items } }
    {
        CallPlan { calls: 0, fails }
    }

    /// Counts a call, and says whether it fails.
    pub(crate) fn next(&mut self) -> bool
        ensures fails { result ≡ fails_next self.old }
        ensures counted { self.new ≡ counted self.old }
    {
        self.calls = self.calls.saturating_add(1);
        self.fails.contains(&self.calls)
    }

    /// Has the call of that number fail too.
    pub(crate) fn fail(&mut self, n: u64) -> Result<(), NoMemory>
        ensures ok { OnOk result (self.new ≡ record self.old { fails = self.old.fails ++ n ∷ [] }) }
        ensures err { OnErr result (self.new ≡ self.old) }
    {
        self.fails.push(n)?;
        Ok(())
    }
}
