//! One file in memory: its name and its bytes.
ghost use Rattle.std.specs.Prelude.{◌≡◌, ◌+◌, ◌<◌, ◌≤◌, ◌++◌, nat_eq, length, IfOk, OnOk, OnErr};
ghost use Rattle.std.specs.List.{starts_with};
ghost use Rattle.ses_io.specs.Files.{overwritten};
ghost use Rattle.ses_io.specs.Stored.{has_name};

use crate::NoMemory;
use std::alloc::Global;
use std::marker::Model;

#[derive(Drop)]
pub(crate) struct MemFile {
    name: String,
    bytes: Vec<u8>,
}

impl Model for MemFile {
    ghost use Rattle.std.specs.Prelude.{string_bytes};
    ghost use Rattle.ses_io.specs.Stored.{StoredFile};

    ghost Value = { StoredFile };

    ghost view = { λ f. record { name = string_bytes f.name; bytes = f.bytes.items } };
}

impl MemFile {
    pub(crate) fn new(alloc: Global, name: &str, bytes: Vec<u8>) -> Result<MemFile, NoMemory>
        ensures { IfOk result (λ f. f ≡ record { name = name.now; bytes = bytes.items }) }
    {
        Ok(MemFile {
            name: String::from_str(alloc, name)?,
            bytes,
        })
    }

    pub(crate) fn has_name(&self, name: &str) -> bool
        ensures { result ≡ has_name name.now self.now }
    {
        self.name.as_str() == name
    }

    pub(crate) fn starts_with(&self, prefix: &str) -> bool
        ensures { result ≡ starts_with nat_eq self.now.name prefix.now }
    {
        self.name.as_bytes().starts_with(prefix.as_bytes())
    }

    pub(crate) fn bytes(&self) -> &[u8]
        ensures { result.now ≡ self.now.bytes }
    {
        self.bytes.as_slice()
    }

    pub(crate) fn replace(&mut self, bytes: Vec<u8>)
        ensures { self.new ≡ record self.old { bytes = bytes.items } }
    {
        self.bytes = bytes;
    }

    /// Adds the piece at the end.
    pub(crate) fn extend(&mut self, bytes: &[u8]) -> Result<(), NoMemory>
        ensures ok { OnOk result
            (self.new ≡ record self.old { bytes = self.old.bytes ++ bytes.now }) }
        ensures err { OnErr result (self.new ≡ self.old) }
        ensures only { OnErr result (0 < length bytes.now) }
    {
        self.bytes.extend_from_slice(bytes)?;
        Ok(())
    }

    /// Writes the piece over the bytes from place `at` on.
    pub(crate) fn overwrite(&mut self, at: usize, bytes: &[u8])
        requires { at + length bytes.now ≤ length self.old.bytes }
        ensures { self.new ≡ record self.old { bytes = overwritten self.old.bytes at bytes.now } }
    {
        self.bytes.as_mut_slice()[at..at + bytes.len()].copy_from_slice(bytes);
    }
}
