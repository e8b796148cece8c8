//! The five calls of a media in memory.
ghost use Rattle.std.specs.Prelude.{◌≡◌, ◌↔◌, ◌⊎◌, ◌-◌, ◌<◌, min, ◌++◌, length, IsTrue, IsErr, IsNone, IfOk, OnErr};
ghost use Rattle.std.specs.Option.{option_map};
ghost use Rattle.ses_io.specs.Calls.{fails_next};
ghost use Rattle.ses_io.specs.Faults.{HasCause, risen};
ghost use Rattle.ses_io.specs.Files.{content, overwritten, HasNameUnder, HasRange, IsPart, AppendsTo, Overwrites, OverwritesSome};
ghost use Rattle.ses_io.specs.Memory.{fails_reading, fails_appending, fails_writing, after_reading, after_writing};
ghost use Rattle.ses_io.specs.Stored.{files_in, stored};

use super::MemMedia;
use crate::copies::copy_from;
use crate::{Failed, Media, NoMemory};

impl MemMedia {
    fn read_fault<T>(&mut self) -> Result<T, Failed>
        ensures failed { IsErr result }
        ensures count { self.new ≡ record self.old { read_faults = risen self.old.read_faults } }
        ensures cause { HasCause self.old.read_faults self.new.read_faults result }
    {
        self.read_faults = self.read_faults.saturating_add(1);
        Err(Failed)
    }

    fn write_fault<T>(&mut self) -> Result<T, Failed>
        ensures failed { IsErr result }
        ensures count { self.new ≡ record self.old { write_faults = risen self.old.write_faults } }
        ensures cause { HasCause self.old.write_faults self.new.write_faults result }
    {
        self.write_faults = self.write_faults.saturating_add(1);
        Err(Failed)
    }
}

impl Media for MemMedia {
    ghost use Rattle.std.specs.Prelude.{⊤};
    ghost use Rattle.ses_io.specs.Stored.{files_in};

    ghost outside = { record {
      tells = ⊤;
      files = λ m. files_in m.files;
      read_faults = λ m. m.read_faults;
      write_faults = λ m. m.write_faults;
    } };

    fn size(&mut self, name: &str) -> Result<Option<u64>, Failed>
        ensures fails { IsErr result ↔ IsTrue (fails_next self.old.plan) }
        ensures size { IfOk result (λ n. n ≡ option_map length (files_in self.old.files name.now)) }
        ensures changes { self.new ≡ after_reading self.old result }
        ensures cause { HasCause self.old.read_faults self.new.read_faults result }
    {
        if self.plan.next() {
            return self.read_fault();
        }
        Ok(self.files.get(name).map(|held| held.len() as u64))
    }

    fn any(&mut self, prefix: &str) -> Result<bool, Failed>
        ensures fails { IsErr result ↔ IsTrue (fails_next self.old.plan) }
        ensures any { IfOk result
            (λ found. IsTrue found ↔ HasNameUnder (files_in self.old.files) prefix.now) }
        ensures changes { self.new ≡ after_reading self.old result }
        ensures cause { HasCause self.old.read_faults self.new.read_faults result }
    {
        if self.plan.next() {
            return self.read_fault();
        }
        Ok(self.files.any(prefix))
    }

    /// Reads as much as the buffer takes.
    fn read_at(&mut self, name: &str, at: u64, buf: &mut [u8]) -> Result<usize, Failed>
        ensures fails { IsErr result ↔ IsTrue (fails_reading self.old name.now at) }
        ensures all { IfOk result (λ n. n
            ≡ min (length buf.new) (length (content (files_in self.old.files) name.now) - at)) }
        ensures bytes { IfOk result
            (IsPart (content (files_in self.old.files) name.now) at buf.new) }
        ensures changes { self.new ≡ after_reading self.old result }
        ensures cause { HasCause self.old.read_faults self.new.read_faults result }
    {
        if self.plan.next() || self.bad_reads.cover(name, at) {
            return self.read_fault();
        }
        match self.files.get(name) {
            Some(held) => Ok(copy_from(held, at as usize, buf)),
            None => Ok(0),
        }
    }

    /// Takes the whole piece, or nothing.
    fn append(&mut self, name: &str, bytes: &[u8]) -> Result<usize, Failed>
        ensures fails { IsTrue (fails_appending self.old name.now) → IsErr result }
        ensures only { OnErr result (IsTrue (fails_appending self.old name.now)
            ⊎ IsNone (files_in self.old.files name.now) ⊎ (0 < length bytes.now)) }
        ensures all { IfOk result (λ n. n ≡ length bytes.now) }
        ensures changes { self.new ≡ after_writing self.old (stored self.old.files name.now
            (content (files_in self.old.files) name.now ++ bytes.now)) result }
        ensures ok { IfOk result (AppendsTo (files_in self.old.files) (files_in self.new.files)
            name.now bytes.now) }
        ensures err { OnErr result (files_in self.new.files ≡ files_in self.old.files) }
        ensures cause { HasCause self.old.write_faults self.new.write_faults result }
    {
        let end = self.files.get(name).map_or(0, |held| held.len() as u64);
        if self.plan.next() || self.bad_writes.cover(name, end) {
            return self.write_fault();
        }
        match self.files.append(self.alloc, name, bytes) {
            Ok(()) => Ok(bytes.len()),
            Err(NoMemory) => self.write_fault(),
        }
    }

    /// Takes the whole piece, or nothing.
    fn write_at(&mut self, name: &str, at: u64, bytes: &[u8]) -> Result<usize, Failed>
        requires { HasRange (files_in self.old.files) name.now at (length bytes.now) }
        ensures fails { IsErr result ↔ IsTrue (fails_writing self.old name.now at) }
        ensures all { IfOk result (λ n. n ≡ length bytes.now) }
        ensures changes { self.new ≡ after_writing self.old (stored self.old.files name.now
            (overwritten (content (files_in self.old.files) name.now) at bytes.now)) result }
        ensures ok { IfOk result (Overwrites (files_in self.old.files) (files_in self.new.files)
            name.now at bytes.now) }
        ensures err { OnErr result (OverwritesSome (files_in self.old.files)
            (files_in self.new.files) name.now at bytes.now) }
        ensures cause { HasCause self.old.write_faults self.new.write_faults result }
    {
        if self.plan.next() || self.bad_writes.cover(name, at) {
            return self.write_fault();
        }
        self.files.overwrite(name, at as usize, bytes);
        Ok(bytes.len())
    }
}
