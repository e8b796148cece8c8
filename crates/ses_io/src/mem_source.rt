//! A source in memory, whose listed calls fail.
ghost use Rattle.std.specs.Prelude.{◌≡◌, ◌↔◌, min, [], length, IsTrue, IsErr, IfOk, OnErr};
ghost use Rattle.ses_io.specs.Calls.{counted, fails_next};
ghost use Rattle.ses_io.specs.Faults.{HasCause, risen};
ghost use Rattle.ses_io.specs.Streams.{Takes};

use crate::call_plan::CallPlan;
use crate::copies::copy_from;
use crate::{Failed, Source};
use std::marker::Model;

/// Bytes in memory that are read once.
#[derive(Drop)]
pub struct MemSource {
    bytes: Vec<u8>,
    at: usize,
    plan: CallPlan,
    faults: u64,
}

impl Model for MemSource {
    ghost use Rattle.std.specs.Prelude.{◌≤◌, drop, vec_len};
    ghost use Rattle.ses_io.specs.Memory.{SourceState};

    ghost Value = { SourceState };

    ghost view = { λ s. record {
      left = drop s.at s.bytes.items;
      plan = s.plan;
      faults = s.faults;
    } };

    ghost invariant = { λ s. s.at ≤ vec_len s.bytes };
}

impl MemSource {
    /// A source of these bytes. The calls whose numbers, from 1, are listed fail.
    pub fn new(bytes: Vec<u8>, fails: Vec<u64>) -> MemSource
        ensures left { result.left ≡ bytes.items }
        ensures plan { result.plan ≡ record { calls = 0; fails = fails.items } }
        ensures faults { result.faults ≡ 0 }
    {
        MemSource {
            bytes,
            at: 0,
            plan: CallPlan::new(fails),
            faults: 0,
        }
    }
}

impl Source for MemSource {
    ghost use Rattle.std.specs.Prelude.{⊤};

    ghost outside = { record {
      tells = ⊤;
      left = λ s. s.left;
      faults = λ s. s.faults;
    } };

    /// Reads as much as the buffer takes. At a listed call nothing is read.
    fn read(&mut self, buf: &mut [u8]) -> Result<usize, Failed>
        ensures fails { IsErr result ↔ IsTrue (fails_next self.old.plan) }
        ensures all { IfOk result (λ n. n ≡ min (length buf.new) (length self.old.left)) }
        ensures bytes { IfOk result (Takes self.old.left self.new.left buf.new) }
        ensures plan { self.new.plan ≡ counted self.old.plan }
        ensures count { OnErr result (self.new.faults ≡ risen self.old.faults) }
        ensures cause { HasCause self.old.faults self.new.faults result }
        ensures unchanged { OnErr result (self.new.left ≡ self.old.left) }
    {
        if self.plan.next() {
            self.faults = self.faults.saturating_add(1);
            return Err(Failed);
        }
        let n = copy_from(self.bytes.as_slice(), self.at, buf);
        self.at += n;
        Ok(n)
    }
}
