//! A media that keeps its files to itself: contracts see its counts of faults alone.
ghost use Rattle.std.specs.Prelude.{◌≡◌, length, IsTrue, IfOk};
ghost use Rattle.ses_io.specs.Faults.{HasCause};
ghost use Rattle.ses_io.specs.Files.{HasRange};
ghost use Rattle.ses_io.specs.Stored.{files_in};

use ses_io::{Failed, Media, MemMedia};
use std::marker::Model;

/// A media in memory that takes so many bytes at most in one call.
#[derive(Drop)]
pub(crate) struct QuietMedia {
    files: MemMedia,
    most: usize,
    read_faults: u64,
    write_faults: u64,
}

impl Model for QuietMedia {
    ghost use Rattle.std.specs.Prelude.{◌<◌};
    ghost use Rattle.ses_files.specs.Counts.{Counts};

    ghost Value = { Counts };

    ghost view = { λ m. record { read_faults = m.read_faults; write_faults = m.write_faults } };

    ghost invariant = { λ m. 0 < m.most };
}

// Hands the outcome on; a fault raises the count.
fn counted<T>(faults: &mut u64, outcome: Result<T, Failed>) -> Result<T, Failed>
    ensures outcome { result ≡ outcome }
    ensures cause { HasCause faults.old faults.new result }
{
    if outcome.is_err() {
        *faults = faults.saturating_add(1);
    }
    outcome
}

// Whether the file has so many bytes from a place on.
fn has_range(files: &MemMedia, name: &str, at: u64, count: usize) -> bool
    ensures { IsTrue result → HasRange (files_in files.now.files) name.now at count }
{
    match files.get(name) {
        Some(held) => {
            let size = held.len() as u64;
            at <= size && count as u64 <= size - at
        }
        None => false,
    }
}

// Writes over bytes of the file, where it has them.
fn write_within(files: &mut MemMedia, name: &str, at: u64, bytes: &[u8]) -> Result<usize, Failed>
    ensures { IfOk result (λ n. n ≡ length bytes.now) }
{
    if !has_range(files, name, at, bytes.len()) {
        return Err(Failed);
    }
    files.write_at(name, at, bytes)
}

impl QuietMedia {
    /// A media with these files, which takes at most so many bytes at once, but at least one.
    pub(crate) fn new(files: MemMedia, most: usize) -> QuietMedia {
        QuietMedia {
            files,
            most: most.max(1),
            read_faults: 0,
            write_faults: 0,
        }
    }

    /// What the file of that name holds, None where it is absent.
    pub(crate) fn held(&self, name: &str) -> Option<&[u8]> {
        self.files.get(name)
    }

    /// How many bytes it holds.
    pub(crate) fn length(&self, name: &str) -> Option<usize> {
        match self.held(name) {
            Some(held) => Some(held.len()),
            None => None,
        }
    }

    /// Whether a file holds this head, and then these bytes.
    pub(crate) fn is_begun(&self, name: &str, head: &[u8], sound: &[u8]) -> bool {
        match self.held(name) {
            Some(held) => held.get(..head.len()) == Some(head)
                && held.get(head.len()..) == Some(sound),
            None => false,
        }
    }
}

impl Media for QuietMedia {
    ghost use Rattle.std.specs.Prelude.{None};

    ghost outside = { record {
      tells = ⊥;
      files = λ _ _. None;
      read_faults = λ m. m.read_faults;
      write_faults = λ m. m.write_faults;
    } };

    fn size(&mut self, name: &str) -> Result<Option<u64>, Failed> {
        let outcome = self.files.size(name);
        counted(&mut self.read_faults, outcome)
    }

    fn any(&mut self, prefix: &str) -> Result<bool, Failed> {
        let outcome = self.files.any(prefix);
        counted(&mut self.read_faults, outcome)
    }

    fn read_at(&mut self, name: &str, at: u64, buf: &mut [u8]) -> Result<usize, Failed> {
        let outcome = self.files.read_at(name, at, buf);
        counted(&mut self.read_faults, outcome)
    }

    fn append(&mut self, name: &str, bytes: &[u8]) -> Result<usize, Failed> {
        let outcome = self
            .files
            .append(name, &bytes[..bytes.len().min(self.most)]);
        counted(&mut self.write_faults, outcome)
    }

    fn write_at(&mut self, name: &str, at: u64, bytes: &[u8]) -> Result<usize, Failed> {
        let part = &bytes[..bytes.len().min(self.most)];
        let outcome = write_within(&mut self.files, name, at, part);
        counted(&mut self.write_faults, outcome)
    }
}
