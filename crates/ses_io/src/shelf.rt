//! Files in memory by name, each name once.
ghost use Rattle.std.specs.Prelude.{◌≡◌, ◌<◌, ◌⊎◌, [], ◌++◌, length, IsNone, OnOk, OnErr, position};
ghost use Rattle.std.specs.Option.{option_copied};
ghost use Rattle.ses_io.specs.Files.{content, overwritten, HasRange};
ghost use Rattle.ses_io.specs.Stored.{has_name, any_under, files_in, stored};

use crate::NoMemory;
use crate::mem_file::MemFile;
use std::alloc::Global;
use std::marker::Model;

/// A few files, found by a look through the list.
#[derive(Drop)]
pub(crate) struct Shelf {
    files: Vec<MemFile>,
}

impl Model for Shelf {
    ghost use Rattle.std.specs.Prelude.{List};
    ghost use Rattle.ses_io.specs.Stored.{StoredFile};

    ghost Value = { List StoredFile };

    ghost view = { λ s. s.files.items };
}

impl Shelf {
    pub(crate) fn new(alloc: Global) -> Shelf
        ensures { result ≡ [] }
    {
        Shelf {
            files: Vec::new(alloc),
        }
    }

    fn place(&self, name: &str) -> Option<usize>
        ensures { result ≡ position (has_name name.now) self.now }
    {
        self.files.iter().position(|f| f.has_name(name))
    }

    pub(crate) fn get(&self, name: &str) -> Option<&[u8]>
        ensures { option_copied result ≡ files_in self.now name.now }
    {
        let file = self.files.iter().find(|f| f.has_name(name))?;
        Some(file.bytes())
    }

    pub(crate) fn any(&self, prefix: &str) -> bool
        ensures { result ≡ any_under prefix.now self.now }
    {
        self.files.iter().any(|f| f.starts_with(prefix))
    }

    /// Puts the bytes in the place of what the file of that name held.
    pub(crate) fn put(&mut self, alloc: Global, name: &str, bytes: Vec<u8>) -> Result<(), NoMemory>
        ensures ok { OnOk result (self.new ≡ stored self.old name.now bytes.items) }
        ensures err { OnErr result (self.new ≡ self.old) }
    {
        match self.place(name) {
            Some(i) => self.files[i].replace(bytes),
            None => self.files.push(MemFile::new(alloc, name, bytes)?)?,
        }
        Ok(())
    }

    /// Adds the piece to the file's end; an absent file is made.
    pub(crate) fn append(&mut self, alloc: Global, name: &str, bytes: &[u8]) -> Result<(), NoMemory>
        ensures ok { OnOk result (self.new
            ≡ stored self.old name.now (content (files_in self.old) name.now ++ bytes.now)) }
        ensures err { OnErr result (self.new ≡ self.old) }
        ensures only { OnErr result (IsNone (files_in self.old name.now) ⊎ (0 < length bytes.now)) }
    {
        match self.place(name) {
            Some(i) => self.files[i].extend(bytes),
            None => self.put(alloc, name, Vec::from_slice(alloc, bytes)?),
        }
    }

    /// Writes the piece over the file's bytes from place `at` on.
    pub(crate) fn overwrite(&mut self, name: &str, at: usize, bytes: &[u8])
        requires { HasRange (files_in self.old) name.now at (length bytes.now) }
        ensures { self.new ≡ stored self.old name.now
            (overwritten (content (files_in self.old) name.now) at bytes.now) }
    {
        if let Some(i) = self.place(name) {
            self.files[i].overwrite(at, bytes);
        }
    }
}
