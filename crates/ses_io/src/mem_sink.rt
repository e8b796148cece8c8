//! A sink in memory, whose listed calls fail.
ghost use Rattle.std.specs.Prelude.{◌≡◌, ◌<◌, ◌↔◌, ◌⊎◌, [], ◌++◌, length, IsTrue, IsErr, IfOk, OnErr, MatchResult};
ghost use Rattle.ses_io.specs.Calls.{counted, fails_next};
ghost use Rattle.ses_io.specs.Faults.{HasCause, risen};

use crate::call_plan::CallPlan;
use crate::{Failed, Sink};
use std::alloc::Global;
use std::marker::Model;

/// Bytes in memory that are only added to.
#[derive(Drop)]
pub struct MemSink {
    bytes: Vec<u8>,
    plan: CallPlan,
    faults: u64,
}

impl Model for MemSink {
    ghost use Rattle.ses_io.specs.Memory.{SinkState};

    ghost Value = { SinkState };

    ghost view = { λ s. record { held = s.bytes.items; plan = s.plan; faults = s.faults } };
}

impl MemSink {
    /// An empty sink. The calls whose numbers, from 1, are listed fail.
    pub fn new(alloc: Global, fails: Vec<u64>) -> MemSink
        ensures held { result.held ≡ [] }
        ensures plan { result.plan ≡ record { calls = 0; fails = fails.items } }
        ensures faults { result.faults ≡ 0 }
    {
        MemSink {
            bytes: Vec::new(alloc),
            plan: CallPlan::new(fails),
            faults: 0,
        }
    }

    /// All that was written.
    pub fn bytes(&self) -> &[u8]
        ensures { result.now ≡ self.now.held }
    {
        self.bytes.as_slice()
    }
}

impl Sink for MemSink {
    ghost use Rattle.std.specs.Prelude.{⊤};

    ghost outside = { record {
      tells = ⊤;
      held = λ s. s.held;
      faults = λ s. s.faults;
    } };

    /// Takes the whole piece. At a listed call, and where it finds no memory to grow, it takes
    /// nothing, and both are faults.
    fn write(&mut self, bytes: &[u8]) -> Result<usize, Failed>
        ensures fails { IsTrue (fails_next self.old.plan) → IsErr result }
        ensures only { OnErr result (IsTrue (fails_next self.old.plan) ⊎ (0 < length bytes.now)) }
        ensures all { IfOk result (λ n. n ≡ length bytes.now) }
        ensures held { MatchResult result (λ _. self.new.held ≡ self.old.held ++ bytes.now)
            (λ _. self.new.held ≡ self.old.held) }
        ensures plan { self.new.plan ≡ counted self.old.plan }
        ensures count { OnErr result (self.new.faults ≡ risen self.old.faults) }
        ensures cause { HasCause self.old.faults self.new.faults result }
    {
        if self.plan.next() || self.bytes.extend_from_slice(bytes).is_err() {
            self.faults = self.faults.saturating_add(1);
            return Err(Failed);
        }
        Ok(bytes.len())
    }
}
