//! A file of the system as a sink.
ghost use Rattle.std.specs.Prelude.{◌≡◌, ◌<◌, ◌≤◌, length, IfOk};

use crate::anew::open_anew;
use crate::counted::counted;
use crate::files_read::FilesRead;
use crate::{hints, tries};
use ses_io::{Failed, Sink};
use std::io::Eprint;
use std::marker::Model;
use std::rt::Files;

/// A file that is made anew, empty, at the first write, or a pipe or a device. What is read, or is
/// reached by a link that leads out of the folder, isn't touched: the write fails. A fault is told
/// on standard error. Contracts see it as its count of faults.
#[derive(Drop)]
pub struct FileSink<R: Files> {
    rt: R,
    path: String,
    read: FilesRead,
    file: Option<R::File>,
    faults: u64,
}

impl<R: Files> Model for FileSink<R> {
    ghost use Rattle.std.specs.Prelude.{ℕ};

    ghost Value = { ℕ };

    ghost view = { λ s. s.faults };
}

impl<R: Files + AllocGlobal + Eprint + Drop> FileSink<R> {
    /// A sink to the file at that path, which isn't touched yet, and isn't one of those that are read.
    pub fn new(rt: R, path: String, read: FilesRead) -> FileSink<R>
        ensures { result ≡ 0 }
    {
        FileSink {
            rt,
            path,
            read,
            file: None,
            faults: 0,
        }
    }

    fn write_opened(&mut self, bytes: &[u8]) -> Result<usize, Failed>
        ensures count { IfOk result (λ n. n ≤ length bytes.now) }
        ensures some { IfOk result (λ n. 0 < length bytes.now → 0 < n) }
        ensures faults { self.new ≡ self.old }
    {
        if self.file.is_none() {
            self.file = Some(open_anew(&self.rt, self.path.as_str(), &self.read)?);
        }
        match &mut self.file {
            Some(file) => tries::write(file, bytes),
            None => Err(Failed),
        }
    }
}

impl<R: Files + AllocGlobal + Eprint + Drop> Sink for FileSink<R> {
    ghost use Rattle.std.specs.Prelude.{[]};

    ghost outside = { record {
      tells = ⊥;
      held = λ _. [];
      faults = λ s. s;
    } };

    fn write(&mut self, bytes: &[u8]) -> Result<usize, Failed> {
        let result = self.write_opened(bytes);
        if result.is_err() {
            hints::cant_be_written(&self.rt, self.path.as_str());
        }
        counted(&mut self.faults, result)
    }
}
