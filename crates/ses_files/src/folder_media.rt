//! A folder of the system as a media.
ghost use Rattle.std.specs.Prelude.{◌≡◌, ◌<◌, ◌≤◌, length, IfOk};

use crate::counted::counted;
use crate::files_read::FilesRead;
use crate::folder::Folder;
use crate::kept_files::KeptFiles;
use crate::made_files::MadeFiles;
use crate::tries;
use ses_io::{Failed, Media};
use std::io::Eprint;
use std::marker::Model;
use std::os::unix::fs::FileExt;
use std::rt::Files;

/// The files of a folder. Up to 64 that were read and up to 64 that were made stay open, so that each
/// is opened once. One that was read, and that another program takes away or puts another in place
/// of meanwhile, is a fault when it is asked for. It writes to no file but those that it made, where
/// none was, and to each only as long as it is as this left it. Each fault is told on standard
/// error with the file's name. Contracts see a folder as its two counts of faults.
#[derive(Drop)]
pub struct FolderMedia<R: Files> {
    folder: Folder<R>,
    kept: KeptFiles<R::File>,
    made: MadeFiles<R::File>,
    read_faults: u64,
    write_faults: u64,
}

impl<R: Files> Model for FolderMedia<R> {
    ghost use Rattle.ses_files.specs.Counts.{Counts};

    ghost Value = { Counts };

    ghost view = { λ m. record { read_faults = m.read_faults; write_faults = m.write_faults } };
}

impl<R: Files + AllocGlobal + Eprint + Clone + Drop> FolderMedia<R>
where
    R::File: FileExt,
{
    /// The media of that folder, which notes what it reads. The empty path stands for the current
    /// one.
    pub fn new(rt: R, folder: String, read: FilesRead) -> FolderMedia<R>
        ensures { result ≡ record { read_faults = 0; write_faults = 0 } }
    {
        let alloc = rt.alloc();
        FolderMedia {
            folder: Folder::new(rt, folder, read),
            kept: KeptFiles::new(alloc),
            made: MadeFiles::new(alloc),
            read_faults: 0,
            write_faults: 0,
        }
    }

    fn tell_read(&self, name: &str, failed: bool) {
        if failed {
            self.folder.tell_read(name);
        }
    }

    fn tell_write(&self, name: &str, failed: bool) {
        if failed {
            self.folder.tell_write(name);
        }
    }

    fn try_read(&mut self, name: &str, at: u64, buf: &mut [u8]) -> Result<usize, Failed>
        ensures count { IfOk result (λ n. n ≤ length buf.new) }
        ensures faults { self.new ≡ self.old }
    {
        match self.folder.open_kept(&mut self.kept, name)? {
            Some(place) => tries::read_at(&self.kept.files[place].file, at, buf),
            None => Ok(0),
        }
    }

    fn try_append(&mut self, name: &str, bytes: &[u8]) -> Result<usize, Failed>
        ensures count { IfOk result (λ n. n ≤ length bytes.now) }
        ensures some { IfOk result (λ n. 0 < length bytes.now → 0 < n) }
        ensures faults { self.new ≡ self.old }
    {
        let place = match self.made.place(name) {
            Some(place) => {
                self.folder.open_made(&mut self.made, name, place)?;
                place
            }
            None => self.folder.make(&mut self.made, name)?,
        };
        self.made.files[place].append(bytes)
    }

    fn try_write(&mut self, name: &str, at: u64, bytes: &[u8]) -> Result<usize, Failed>
        ensures count { IfOk result (λ n. n ≤ length bytes.now) }
        ensures some { IfOk result (λ n. 0 < length bytes.now → 0 < n) }
        ensures faults { self.new ≡ self.old }
    {
        let place = self.made.place(name).ok_or(Failed)?;
        self.folder.open_made(&mut self.made, name, place)?;
        self.made.files[place].overwrite(at, bytes)
    }
}

impl<R: Files + AllocGlobal + Eprint + Clone + Drop> Media for FolderMedia<R>
where
    R::File: FileExt,
{
    ghost use Rattle.std.specs.Prelude.{None};

    ghost outside = { record {
      tells = ⊥;
      files = λ _ _. None;
      read_faults = λ m. m.read_faults;
      write_faults = λ m. m.write_faults;
    } };

    fn size(&mut self, name: &str) -> Result<Option<u64>, Failed> {
        let outcome = self.folder.size(name);
        self.tell_read(name, outcome.is_err());
        counted(&mut self.read_faults, outcome)
    }

    fn any(&mut self, prefix: &str) -> Result<bool, Failed> {
        let outcome = self.folder.any(prefix);
        self.tell_read(".", outcome.is_err());
        counted(&mut self.read_faults, outcome)
    }

    fn read_at(&mut self, name: &str, at: u64, buf: &mut [u8]) -> Result<usize, Failed> {
        let outcome = self.try_read(name, at, buf);
        self.tell_read(name, outcome.is_err());
        counted(&mut self.read_faults, outcome)
    }

    fn append(&mut self, name: &str, bytes: &[u8]) -> Result<usize, Failed> {
        let outcome = self.try_append(name, bytes);
        self.tell_write(name, outcome.is_err());
        counted(&mut self.write_faults, outcome)
    }

    fn write_at(&mut self, name: &str, at: u64, bytes: &[u8]) -> Result<usize, Failed> {
        let outcome = self.try_write(name, at, bytes);
        self.tell_write(name, outcome.is_err());
        counted(&mut self.write_faults, outcome)
    }
}
