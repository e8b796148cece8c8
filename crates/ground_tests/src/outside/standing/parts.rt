//! The parts of a world that read and write in a folder, and other programs beside them.
use ses_files::{FileSink, FileSource, FilesRead, FolderMedia};
use ses_io::{Failed, Media, NoMemory, Sink, Source};
use std::fs::OpenOptions;
use std::io::Write;
use std::os::unix::fs::symlink;
use std::{fs, io};

/// What another program does with a name, or finds there.
pub(super) enum Deed {
    /// A file is made anew with these bytes.
    Put(&'static [u8]),
    /// A byte is added to it.
    Touch,
    Remove,
    /// It becomes a link that leads there.
    Link(&'static str),
    /// It becomes one more name of that file.
    HardLink(&'static str),
    Find(&'static [u8]),
    Miss,
}

/// What is done, and how a part of the world has to answer.
pub(super) enum Step {
    Other(&'static str, Deed),
    /// The media reads the file's first four bytes, or the input its own.
    Read(&'static str),
    Listen,
    Master(&'static [u8], Result<usize, Failed>),
    Append(&'static str, &'static [u8], Result<usize, Failed>),
    Over(&'static str, u64, &'static [u8], Result<usize, Failed>),
}

/// They share what is read.
#[derive(Drop)]
pub(super) struct Parts {
    rt: HostRuntime,
    folder: String,
    media: FolderMedia<HostRuntime>,
    input: FileSource<HostRuntime>,
    master: FileSink<HostRuntime>,
}

fn path_of(rt: HostRuntime, folder: &str, name: &str) -> Result<String, NoMemory> {
    match format!(in rt.alloc(); "{folder}/{name}") {
        Ok(path) => Ok(path),
        Err(_) => Err(NoMemory),
    }
}

fn touch(rt: HostRuntime, path: &str) -> io::Result<()> {
    let mut how = OpenOptions::new();
    let mut file = how.append(true).open(&rt, path)?;
    file.write_all(b"!")
}

fn holds(rt: HostRuntime, path: &str, bytes: &[u8]) -> bool {
    match fs::read(&rt, path) {
        Ok(held) => held.as_slice() == bytes,
        Err(_) => false,
    }
}

fn join(rt: HostRuntime, folder: &str, path: &str, file: &str) -> bool {
    match path_of(rt, folder, file) {
        Ok(file) => fs::hard_link(&rt, file.as_str(), path).is_ok(),
        Err(NoMemory) => false,
    }
}

// Each part may go to a thread of its own.
fn sent<T: Send>(part: T) -> T {
    part
}

impl Parts {
    pub(super) fn new(rt: HostRuntime, folder: &str) -> Result<Parts, NoMemory> {
        let alloc = rt.alloc();
        let read = FilesRead::new(alloc)?;
        let input = path_of(rt, folder, "device-in.wav")?;
        let master = path_of(rt, folder, "device-out.wav")?;
        Ok(Parts {
            rt,
            folder: String::from_str(alloc, folder)?,
            media: sent(FolderMedia::new(rt, String::from_str(alloc, folder)?, read.share()?)),
            input: sent(FileSource::new(rt, input, read.share()?)),
            master: sent(FileSink::new(rt, master, read)),
        })
    }

    // Whether another program does this.
    fn other(&self, name: &str, deed: &Deed) -> bool {
        let folder = self.folder.as_str();
        let Ok(path) = path_of(self.rt, folder, name) else {
            return false;
        };
        let path = path.as_str();
        match deed {
            Deed::Put(bytes) => fs::write(&self.rt, path, *bytes).is_ok(),
            Deed::Touch => touch(self.rt, path).is_ok(),
            Deed::Remove => fs::remove_file(&self.rt, path).is_ok(),
            Deed::Link(to) => symlink(&self.rt, *to, path).is_ok(),
            Deed::HardLink(file) => join(self.rt, folder, path, file),
            Deed::Find(bytes) => holds(self.rt, path, bytes),
            Deed::Miss => matches!(fs::exists(&self.rt, path), Ok(false)),
        }
    }

    /// Whether a step is done, and answered as it has to be.
    pub(super) fn does(&mut self, step: &Step) -> bool {
        match step {
            Step::Other(name, deed) => self.other(name, deed),
            Step::Read(name) => self.media.read_at(name, 0, &mut [0; 4]) == Ok(4),
            Step::Listen => self.input.read(&mut [0; 4]) == Ok(4),
            Step::Master(bytes, want) => self.master.write(bytes) == *want,
            Step::Append(name, bytes, want) => self.media.append(name, bytes) == *want,
            Step::Over(name, at, bytes, want) => self.media.write_at(name, *at, bytes) == *want,
        }
    }
}
