//! A media in memory, with the calls, files and places at which it fails.
ghost use Rattle.std.specs.Prelude.{◌≡◌, [], ◌∷◌, ◌++◌, OnOk, OnErr};
ghost use Rattle.std.specs.Option.{option_copied};
ghost use Rattle.ses_io.specs.Files.{with_file};
ghost use Rattle.ses_io.specs.Stored.{files_in, stored};

mod calls;

use crate::NoMemory;
use crate::call_plan::CallPlan;
use crate::fail_places::FailPlaces;
use crate::shelf::Shelf;
use std::alloc::Global;
use std::marker::Model;

/// Files in memory. A test tells it beforehand which calls fail.
#[derive(Drop)]
pub struct MemMedia {
    alloc: Global,
    files: Shelf,
    plan: CallPlan,
    bad_reads: FailPlaces,
    bad_writes: FailPlaces,
    read_faults: u64,
    write_faults: u64,
}

impl Model for MemMedia {
    ghost use Rattle.ses_io.specs.Memory.{MediaState};

    ghost Value = { MediaState };

    ghost view = { λ m. record {
      files = m.files;
      plan = m.plan;
      bad_reads = m.bad_reads;
      bad_writes = m.bad_writes;
      read_faults = m.read_faults;
      write_faults = m.write_faults;
    } };
}

impl MemMedia {
    /// A media with no file, of which no call fails.
    pub fn new(alloc: Global) -> MemMedia
        ensures { result ≡ record {
          files = [];
          plan = record { calls = 0; fails = [] };
          bad_reads = [];
          bad_writes = [];
          read_faults = 0;
          write_faults = 0;
        } }
    {
        MemMedia {
            alloc,
            files: Shelf::new(alloc),
            plan: CallPlan::new(Vec::new(alloc)),
            bad_reads: FailPlaces::new(alloc),
            bad_writes: FailPlaces::new(alloc),
            read_faults: 0,
            write_faults: 0,
        }
    }

    /// Makes the file, or puts the bytes in the place of what it held. It is no call that counts.
    pub fn put(&mut self, name: &str, bytes: Vec<u8>) -> Result<(), NoMemory>
        ensures ok { OnOk result
            (self.new ≡ record self.old { files = stored self.old.files name.now bytes.items }) }
        ensures file { OnOk result
            (files_in self.new.files ≡ with_file (files_in self.old.files) name.now bytes.items) }
        ensures err { OnErr result (self.new ≡ self.old) }
    {
        self.files.put(self.alloc, name, bytes)
    }

    /// What the file holds, None where it is absent.
    pub fn get(&self, name: &str) -> Option<&[u8]>
        ensures { option_copied result ≡ files_in self.now.files name.now }
    {
        self.files.get(name)
    }

    /// Makes each `read_at` of that file at or past `from` fail. The empty name stands for every
    /// file.
    pub fn fail_reads(&mut self, name: &str, from: u64) -> Result<(), NoMemory>
        ensures ok { OnOk result (self.new ≡ record self.old
            { bad_reads = self.old.bad_reads ++ record { name = name.now; from = from } ∷ [] }) }
        ensures err { OnErr result (self.new ≡ self.old) }
    {
        self.bad_reads.add(self.alloc, name, from)
    }

    /// Makes each `write_at` of that file at or past `from` fail, and each `append` to it where
    /// it holds at least `from` bytes. The empty name stands for every file.
    pub fn fail_writes(&mut self, name: &str, from: u64) -> Result<(), NoMemory>
        ensures ok { OnOk result (self.new ≡ record self.old
            { bad_writes = self.old.bad_writes ++ record { name = name.now; from = from } ∷ [] }) }
        ensures err { OnErr result (self.new ≡ self.old) }
    {
        self.bad_writes.add(self.alloc, name, from)
    }

    /// Makes the n-th call of a media's five kinds fail, counted from 1 from the first one on.
    pub fn fail_call(&mut self, n: u64) -> Result<(), NoMemory>
        ensures ok { OnOk result (self.new ≡ record self.old
            { plan = record self.old.plan { fails = self.old.plan.fails ++ n ∷ [] } }) }
        ensures err { OnErr result (self.new ≡ self.old) }
    {
        self.plan.fail(n)
    }
}
