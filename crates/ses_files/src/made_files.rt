//! Files that were made: each is written only as long as it is as it was left.
ghost use Rattle.std.specs.Prelude.{◌≡◌, ◌<◌, ◌≤◌, length, IfSome, IfOk};

use crate::file_id::FileId;
use crate::tries;
use ses_io::Failed;
use std::alloc::{AllocError, Global};
use std::fs::Metadata;
use std::mem;
use std::os::unix::fs::FileExt;

/// How many stay open: those that were opened last.
const MOST: usize = 64;

/// A file by its name, which file of the system it is, and how many bytes it was left with.
#[derive(Drop)]
pub(crate) struct Made<F> {
    name: String,
    id: FileId,
    bytes: u64,
    // Another program changed it, took it away, or put another in its place.
    lost: bool,
    file: Option<F>,
}

impl<F> Made<F> {
    /// It is empty yet.
    pub(crate) fn new(name: String, id: FileId, file: F) -> Made<F> {
        Made {
            name,
            id,
            bytes: 0,
            lost: false,
            file: Some(file),
        }
    }

    /// Whether what was found is the file as it was left. One that wasn't found so once is lost.
    pub(crate) fn is_still(&mut self, found: Option<&Metadata>) -> bool {
        let same = match found {
            Some(data) => FileId::of(data) == self.id && data.len() == self.bytes,
            None => false,
        };
        self.lost = self.lost || !same;
        !self.lost
    }

    pub(crate) fn is_open(&self) -> bool {
        self.file.is_some()
    }
}

impl<F: FileExt> Made<F> {
    /// Writes behind what it has.
    pub(crate) fn append(&mut self, bytes: &[u8]) -> Result<usize, Failed>
        ensures bound { IfOk result (λ n. n ≤ length bytes.now) }
        ensures some { IfOk result (λ n. 0 < length bytes.now → 0 < n) }
    {
        let Some(file) = &self.file else {
            return Err(Failed);
        };
        let written = tries::write_at(file, self.bytes, bytes)?;
        self.bytes = self.bytes.saturating_add(written as u64);
        Ok(written)
    }

    /// Writes over bytes that it has.
    pub(crate) fn overwrite(&self, at: u64, bytes: &[u8]) -> Result<usize, Failed>
        ensures bound { IfOk result (λ n. n ≤ length bytes.now) }
        ensures some { IfOk result (λ n. 0 < length bytes.now → 0 < n) }
    {
        let Some(file) = &self.file else {
            return Err(Failed);
        };
        if at.saturating_add(bytes.len() as u64) > self.bytes {
            return Err(Failed);
        }
        tries::write_at(file, at, bytes)
    }
}

/// The files, and the places of those that are open, from the one that makes room next.
#[derive(Drop)]
pub(crate) struct MadeFiles<F> {
    pub(crate) files: Vec<Made<F>>,
    open: [usize; MOST],
    first: usize,
}

impl<F: Drop> MadeFiles<F> {
    pub(crate) fn new(alloc: Global) -> MadeFiles<F> {
        MadeFiles {
            files: Vec::new(alloc),
            open: [usize::MAX; MOST],
            first: 0,
        }
    }

    /// The place of the file of a name, None where none was made.
    pub(crate) fn place(&self, name: &str) -> Option<usize>
        ensures { IfSome result (λ i. i < length self.now.files.items) }
    {
        // The takes that grow are those that were made last.
        self.files
            .iter()
            .rposition(|made| made.name.as_str() == name)
    }

    // The file at a place was opened: that which was opened first makes room.
    fn opened(&mut self, place: usize)
        ensures { length self.new.files.items ≡ length self.old.files.items }
    {
        let slot = self.first % MOST;
        let closed = mem::replace(&mut self.open[slot], place);
        self.first = slot + 1;
        if let Some(made) = self.files.get_mut(closed) {
            made.file = None;
        }
    }

    /// Adds a file that was made now, and answers its place.
    pub(crate) fn add(&mut self, made: Made<F>) -> Result<usize, AllocError>
        ensures { IfOk result (λ i. i < length self.new.files.items) }
    {
        let place = self.files.len();
        self.files.push(made)?;
        self.opened(place);
        Ok(place)
    }

    /// Keeps the file at a place open, which was opened again.
    pub(crate) fn keep(&mut self, place: usize, file: F)
        requires { place < length self.old.files.items }
        ensures { length self.new.files.items ≡ length self.old.files.items }
    {
        self.opened(place);
        self.files[place].file = Some(file);
    }
}
