//! Sources in memory, whose listed calls fail.
ghost use Rattle.std.specs.Prelude.{◌≡◌, ◌↔◌, ◌%◌, ◌<◌, [], length, slice_index, All, IsTrue, IsErr, OnOk, OnErr};
ghost use Rattle.ses_io.specs.Calls.{counted, fails_next};
ghost use Rattle.ses_io.specs.Faults.{HasCause, risen};
ghost use Rattle.session_model.specs.Frames.{sounds_of, interleaved, IsSample};
ghost use Rattle.session_model.specs.MemFrames.{channels_in, told_in};

use crate::frames::Frames;
use crate::mem_sound::MemSound;
use ses_io::Failed;
use std::marker::Model;

/// Sources that tell their frames.
#[derive(Drop)]
pub struct MemFrames {
    sources: Vec<MemSound>,
    calls: u64,
    fails: Vec<u64>,
    faults: u64,
}

impl Model for MemFrames {
    ghost use Rattle.ses_io.specs.Calls.{PlannedCalls};
    ghost use Rattle.session_model.specs.MemFrames.{FramesState};

    ghost Value = { FramesState };

    ghost view = { λ m. let plan : PlannedCalls =
        record { calls = m.calls; fails = m.fails.items } in
        record { sources = m.sources.items; plan = plan; faults = m.faults } };
}

impl MemFrames {
    /// These sources. The calls whose numbers, from 1, are listed fail.
    pub fn new(sources: Vec<MemSound>, fails: Vec<u64>) -> MemFrames
        ensures sources { result.sources ≡ sources.items }
        ensures plan { result.plan ≡ record { calls = 0; fails = fails.items } }
        ensures faults { result.faults ≡ 0 }
    {
        MemFrames {
            sources,
            calls: 0,
            fails,
            faults: 0,
        }
    }
}

impl Frames for MemFrames {
    ghost use Rattle.std.specs.Prelude.{⊤, List};
    ghost use Rattle.session_model.specs.MemFrames.{Sound, channels_in, told_in};

    ghost outside = { record {
      tells = λ m. ⊤;
      channels = λ m. channels_in m.sources;
      frames = λ m. told_in m.sources;
      faults = λ m. m.faults;
    } };

    ghost Rest = { List Sound };

    ghost rest = { λ m. m.sources };

    /// At a listed call nothing is written.
    fn frames(&mut self, source: u32, from: u64, out: &mut [i32]) -> Result<(), Failed>
        requires source { source < length (channels_in self.old.sources) }
        requires whole { length out.old % slice_index (channels_in self.old.sources) source ≡ 0 }
        ensures fails { IsErr result ↔ IsTrue (fails_next self.old.plan) }
        ensures told { OnOk result (out.new ≡ interleaved
            (sounds_of (told_in self.old.sources) source)
            (slice_index (channels_in self.old.sources) source) from (length out.new)) }
        ensures range { OnOk result (All IsSample out.new) }
        ensures written { OnErr result (out.new ≡ out.old) }
        ensures sources { self.new.sources ≡ self.old.sources }
        ensures plan { self.new.plan ≡ counted self.old.plan }
        ensures count { OnErr result (self.new.faults ≡ risen self.old.faults) }
        ensures cause { HasCause self.old.faults self.new.faults result }
    {
        self.calls = self.calls.saturating_add(1);
        if self.fails.contains(&self.calls) {
            self.faults = self.faults.saturating_add(1);
            return Err(Failed);
        }
        self.sources[source as usize].fill(from, out);
        Ok(())
    }
}
