//! Files that stay open, by their names: up to 64, and then the one that was opened first makes room.
ghost use Rattle.std.specs.Prelude.{◌<◌, length, IfSome, IfOk};

use crate::file_id::FileId;
use std::alloc::{AllocError, Global};

/// How many files stay open.
const MOST: usize = 64;

/// An open file, by its name and by which file of the system it is.
#[derive(Drop)]
pub(crate) struct Kept<F> {
    name: String,
    id: FileId,
    pub(crate) file: F,
}

impl<F> Kept<F> {
    pub(crate) fn new(name: String, id: FileId, file: F) -> Kept<F> {
        Kept { name, id, file }
    }
}

/// The open files, and which of them makes room next.
#[derive(Drop)]
pub(crate) struct KeptFiles<F> {
    pub(crate) files: Vec<Kept<F>>,
    first: usize,
}

impl<F: Drop> KeptFiles<F> {
    pub(crate) fn new(alloc: Global) -> KeptFiles<F> {
        KeptFiles {
            files: Vec::new(alloc),
            first: 0,
        }
    }

    /// The place of the file of a name, None where it isn't open.
    pub(crate) fn place(&self, name: &str) -> Option<usize>
        ensures { IfSome result (λ i. i < length self.now.files.items) }
    {
        for (place, kept) in self.files.iter().enumerate() {
            if kept.name.as_str() == name {
                return Some(place);
            }
        }
        None
    }

    /// Whether the file at a place is still the one that the system has by its name.
    pub(crate) fn is_still(&self, place: usize, id: FileId) -> bool
        requires { place < length self.now.files.items }
    {
        self.files[place].id == id
    }

    /// Keeps a file open, and answers its place.
    pub(crate) fn keep(&mut self, kept: Kept<F>) -> Result<usize, AllocError>
        ensures { IfOk result (λ i. i < length self.new.files.items) }
    {
        let many = self.files.len();
        if many < MOST {
            self.files.push(kept)?;
            return Ok(many);
        }
        let place = self.first % many;
        self.files[place] = kept;
        self.first = place + 1;
        Ok(place)
    }

    /// Closes the file at a place.
    pub(crate) fn close(&mut self, place: usize)
        requires { place < length self.old.files.items }
    {
        self.files.swap_remove(place);
    }
}
