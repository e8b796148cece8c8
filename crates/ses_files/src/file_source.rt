//! A file of the system as a source.
ghost use Rattle.std.specs.Prelude.{◌≡◌, ◌≤◌, length, IfOk};

use crate::counted::counted;
use crate::file_id::FileId;
use crate::files_read::FilesRead;
use crate::{hints, tries};
use ses_io::{Failed, Source};
use std::fs;
use std::fs::OpenFile;
use std::io::{Eprint, ErrorKind};
use std::marker::Model;
use std::rt::Files;

/// A file that is opened at the first read, and reads as an empty one where it is absent then, which
/// is noted. A fault is told on standard error. Contracts see it as its count of faults.
#[derive(Drop)]
pub struct FileSource<R: Files> {
    rt: R,
    path: String,
    read: FilesRead,
    file: Opened<R::File>,
    faults: u64,
}

#[derive(Drop)]
enum Opened<F> {
    NotYet,
    Absent,
    File(F),
}

impl<R: Files> Model for FileSource<R> {
    ghost use Rattle.std.specs.Prelude.{ℕ};

    ghost Value = { ℕ };

    ghost view = { λ s. s.faults };
}

impl<R: Files + Eprint + Drop> FileSource<R> {
    /// A source of the file at that path, which isn't opened yet, and is noted then.
    pub fn new(rt: R, path: String, read: FilesRead) -> FileSource<R>
        ensures { result ≡ 0 }
    {
        FileSource {
            rt,
            path,
            read,
            file: Opened::NotYet,
            faults: 0,
        }
    }

    fn open(&mut self) -> Result<(), Failed>
        ensures { self.new ≡ self.old }
    {
        if let Opened::NotYet = &self.file {
            self.file = match fs::open(&self.rt, self.path.as_str()) {
                Ok(file) => {
                    let data = file.metadata().map_err(|_| Failed)?;
                    self.read.note(FileId::of(&data))?;
                    Opened::File(file)
                }
                Err(e) if e.kind() == ErrorKind::NotFound => {
                    self.read.note_silence();
                    Opened::Absent
                }
                Err(_) => return Err(Failed),
            };
        }
        Ok(())
    }

    fn read_opened(&mut self, buf: &mut [u8]) -> Result<usize, Failed>
        ensures count { IfOk result (λ n. n ≤ length buf.new) }
        ensures faults { self.new ≡ self.old }
    {
        self.open()?;
        match &mut self.file {
            Opened::File(file) => tries::read(file, buf),
            Opened::NotYet | Opened::Absent => Ok(0),
        }
    }
}

impl<R: Files + Eprint + Drop> Source for FileSource<R> {
    ghost use Rattle.std.specs.Prelude.{[]};

    ghost outside = { record {
      tells = ⊥;
      left = λ _. [];
      faults = λ s. s;
    } };

    fn read(&mut self, buf: &mut [u8]) -> Result<usize, Failed> {
        let result = self.read_opened(buf);
        if result.is_err() {
            hints::cant_be_read(&self.rt, self.path.as_str());
        }
        counted(&mut self.faults, result)
    }
}
