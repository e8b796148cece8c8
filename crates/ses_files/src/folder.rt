//! A folder of the system: its files by name.
ghost use Rattle.std.specs.Prelude.{◌≡◌, ◌<◌, length, IfSome, IfOk};

use crate::file_id::FileId;
use crate::files_read::FilesRead;
use crate::hints;
use crate::kept_files::{Kept, KeptFiles};
use crate::made_files::{Made, MadeFiles};
use ses_io::Failed;
use std::alloc::AllocError;
use std::fs;
use std::fs::{Metadata, OpenFile, OpenOptions};
use std::io::{Eprint, ErrorKind};
use std::rt::Files;

/// The folder's path, room for that of a file in it, and which files are read.
#[derive(Drop)]
pub(crate) struct Folder<R> {
    rt: R,
    folder: String,
    path: String,
    read: FilesRead,
}

impl<R: Files + AllocGlobal + Eprint + Clone + Drop> Folder<R> {
    /// The empty path stands for the current folder.
    pub(crate) fn new(rt: R, folder: String, read: FilesRead) -> Folder<R> {
        let path = String::new(rt.alloc());
        Folder {
            rt,
            folder,
            path,
            read,
        }
    }

    /// Leaves the path of the file of that name in `path`.
    fn find(&mut self, name: &str) -> Result<(), AllocError> {
        self.path.clear();
        if !self.folder.is_empty() {
            self.path.push_str(self.folder.as_str())?;
            self.path.push('/')?;
        }
        self.path.push_str(name)
    }

    /// What the system says of the file, None where it is absent. A pipe, a device or a folder is a fault, so that none
    /// is waited for.
    fn data(&mut self, name: &str) -> Result<Option<Metadata>, Failed> {
        self.find(name).map_err(|_| Failed)?;
        match fs::metadata(&self.rt, self.path.as_str()) {
            Ok(data) if data.is_file() => Ok(Some(data)),
            Ok(_) => {
                hints::is_no_file(&self.rt, self.path.as_str());
                Err(Failed)
            }
            Err(e) if e.kind() == ErrorKind::NotFound => Ok(None),
            Err(_) => Err(Failed),
        }
    }

    // Opens the file, None where it is absent.
    fn open(&mut self, name: &str, how: &OpenOptions) -> Result<Option<R::File>, Failed> {
        self.find(name).map_err(|_| Failed)?;
        match how.open(&self.rt, self.path.as_str()) {
            Ok(file) => Ok(Some(file)),
            Err(e) if e.kind() == ErrorKind::NotFound => Ok(None),
            Err(_) => Err(Failed),
        }
    }

    /// The place of the file among those that are kept open to be read, None where it is absent. One that was kept, and
    /// that its name names no more, is closed, and that is a fault: another program took it away.
    pub(crate) fn open_kept(
        &mut self,
        kept: &mut KeptFiles<R::File>,
        name: &str,
    ) -> Result<Option<usize>, Failed>
        ensures { IfOk result (λ found. IfSome found (λ i. i < length kept.new.files.items)) }
    {
        if let Some(place) = kept.place(name) {
            if let Some(data) = self.data(name)?
                && kept.is_still(place, FileId::of(&data))
            {
                return Ok(Some(place));
            }
            kept.close(place);
            return Err(Failed);
        }
        if self.data(name)?.is_none() {
            return Ok(None);
        }
        let mut how = OpenOptions::new();
        let Some(file) = self.open(name, how.read(true))? else {
            return Ok(None);
        };
        let id = FileId::of(&file.metadata().map_err(|_| Failed)?);
        self.read.note(id)?;
        let name = String::from_str(self.rt.alloc(), name).map_err(|_| Failed)?;
        let place = kept.keep(Kept::new(name, id, file));
        Ok(Some(place.map_err(|_| Failed)?))
    }

    /// Makes the file, and answers its place. Where its name stands for something it is a fault. Where there is no input the
    /// first one is told of.
    pub(crate) fn make(
        &mut self,
        made: &mut MadeFiles<R::File>,
        name: &str,
    ) -> Result<usize, Failed>
        ensures { IfOk result (λ i. i < length made.new.files.items) }
    {
        let own = String::from_str(self.rt.alloc(), name).map_err(|_| Failed)?;
        let mut how = OpenOptions::new();
        let Some(file) = self.open(name, how.write(true).create_new(true))? else {
            return Err(Failed);
        };
        if self.read.takes_silence() {
            hints::is_silent(&self.rt, name);
        }
        let id = FileId::of(&file.metadata().map_err(|_| Failed)?);
        made.add(Made::new(own, id, file)).map_err(|_| Failed)
    }

    /// Has the file at that place open, if it is as it was left, and its name still stands for it and is no link.
    pub(crate) fn open_made(
        &mut self,
        made: &mut MadeFiles<R::File>,
        name: &str,
        place: usize,
    ) -> Result<(), Failed>
        requires { place < length made.old.files.items }
        ensures { length made.new.files.items ≡ length made.old.files.items }
    {
        self.find(name).map_err(|_| Failed)?;
        let found = fs::symlink_metadata(&self.rt, self.path.as_str()).ok();
        if !made.files[place].is_still(found.as_ref()) {
            return Err(Failed);
        }
        if made.files[place].is_open() {
            return Ok(());
        }
        let mut how = OpenOptions::new();
        let Some(file) = self.open(name, how.write(true))? else {
            return Err(Failed);
        };
        let data = file.metadata().map_err(|_| Failed)?;
        if !made.files[place].is_still(Some(&data)) {
            return Err(Failed);
        }
        made.keep(place, file);
        Ok(())
    }

    /// Tells on standard error that a read of the file failed, or a write.
    pub(crate) fn tell_read(&self, name: &str) {
        hints::cant_be_read(&self.rt, name);
    }

    pub(crate) fn tell_write(&self, name: &str) {
        hints::cant_be_written(&self.rt, name);
    }

    /// The bytes of the file, None where it is absent.
    pub(crate) fn size(&mut self, name: &str) -> Result<Option<u64>, Failed> {
        match self.data(name)? {
            Some(data) => Ok(Some(data.len())),
            None => Ok(None),
        }
    }

    /// Whether some name begins with the prefix. A name that is no text begins with none.
    pub(crate) fn any(&mut self, prefix: &str) -> Result<bool, Failed> {
        self.find(".").map_err(|_| Failed)?;
        for entry in fs::read_dir(&self.rt, self.path.as_str()).map_err(|_| Failed)? {
            match entry {
                Ok(entry) if entry.file_name().starts_with(prefix) => return Ok(true),
                Ok(_) => {}
                Err(e) if e.kind() == ErrorKind::InvalidFilename => {}
                Err(_) => return Err(Failed),
            }
        }
        Ok(false)
    }
}
