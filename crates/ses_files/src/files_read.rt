//! Which files of the system are read, told to what would empty one of them, and whether there is an input.
use crate::file_id::FileId;
use ses_io::{Failed, NoMemory};
use std::alloc::Global;
use std::mem;
use std::sync::{Arc, Mutex};

/// The files that were opened to be read. The parts of one world share it: its media and its input
/// note what they open, and its master writes over none of these.
#[derive(Drop)]
pub struct FilesRead {
    seen: Arc<Mutex<Seen>, Global>,
}

#[derive(Drop)]
struct Seen {
    files: Vec<FileId>,
    // There is no input, and nobody was told so yet.
    silent: bool,
}

impl FilesRead {
    /// No file was read yet.
    pub fn new(alloc: Global) -> Result<FilesRead, NoMemory> {
        let seen = Mutex::new(Seen {
            files: Vec::new(alloc),
            silent: false,
        });
        let seen = Arc::new(alloc, seen)?;
        Ok(FilesRead { seen })
    }

    /// The same list, for another part of the world.
    pub fn share(&self) -> Result<FilesRead, NoMemory> {
        let seen = Arc::try_clone(&self.seen)?;
        Ok(FilesRead { seen })
    }

    /// The lock is held for one look through the list, so it is only tried, again and again.
    pub(crate) fn note(&self, file: FileId) -> Result<(), Failed> {
        for _try in 0..u64::MAX {
            if let Some(mut seen) = self.seen.try_lock() {
                if seen.files.contains(&file) {
                    return Ok(());
                }
                return seen.files.push(file).map_err(|_| Failed);
            }
        }
        Err(Failed)
    }

    /// Whether the file was opened to be read.
    pub(crate) fn has(&self, file: FileId) -> bool {
        for _try in 0..u64::MAX {
            if let Some(seen) = self.seen.try_lock() {
                return seen.files.contains(&file);
            }
        }
        true
    }

    /// Notes that there is no input.
    pub(crate) fn note_silence(&self) {
        for _try in 0..u64::MAX {
            if let Some(mut seen) = self.seen.try_lock() {
                seen.silent = true;
                return;
            }
        }
    }

    /// Whether there is no input, the first time that it is asked.
    pub(crate) fn takes_silence(&self) -> bool {
        for _try in 0..u64::MAX {
            if let Some(mut seen) = self.seen.try_lock() {
                return mem::replace(&mut seen.silent, false);
            }
        }
        false
    }
}
