//! Real files, and readers and writers of std, as sources and sinks.
use ses_files::{FileSink, FileSource, FilesRead, ReadSource, WriteSink};
use ses_io::{Failed, NoMemory, Sink, Source, read_full, write_all};
use std::io;
use std::io::{Error, ErrorKind, Read, Write};

// Whether the text goes into the sink, byte by byte.
fn is_put(sink: &mut FileSink<HostRuntime>, bytes: &[u8]) -> bool {
    for byte in bytes {
        if write_all(sink, &[*byte]).is_err() {
            return false;
        }
    }
    true
}

fn sink(rt: HostRuntime, path: &str) -> Result<FileSink<HostRuntime>, NoMemory> {
    let alloc = rt.alloc();
    let path = String::from_str(alloc, path)?;
    Ok(FileSink::new(rt, path, FilesRead::new(alloc)?))
}

fn source(rt: HostRuntime, path: &str) -> Result<FileSource<HostRuntime>, NoMemory> {
    let alloc = rt.alloc();
    let path = String::from_str(alloc, path)?;
    Ok(FileSource::new(rt, path, FilesRead::new(alloc)?))
}

// Whether the text is written to the file.
fn is_written(rt: HostRuntime, path: &str, bytes: &[u8]) -> bool {
    match sink(rt, path) {
        Ok(mut sink) => is_put(&mut sink, bytes),
        Err(NoMemory) => false,
    }
}

// How many bytes the source has, at most eight, and these.
fn first_eight(source: &mut FileSource<HostRuntime>) -> Result<(usize, [u8; 8]), Failed> {
    let mut eight = *b"........";
    let n = read_full(source, &mut eight)?;
    Ok((n, eight))
}

// Whether this is read of the file.
fn holds(rt: HostRuntime, path: &str, held: Result<(usize, [u8; 8]), Failed>) -> bool {
    match source(rt, path) {
        Ok(mut source) => first_eight(&mut source) == held,
        Err(NoMemory) => false,
    }
}

// Whether the file is made, and then made anew.
fn is_made(rt: HostRuntime, path: &str) -> bool {
    holds(rt, path, Ok((0, *b"........")))
        && is_written(rt, path, b"abcde")
        && holds(rt, path, Ok((5, *b"abcde...")))
        && is_written(rt, path, b"xy")
        && holds(rt, path, Ok((2, *b"xy......")))
}

/// Whether a file of the folder is made anew and read back, and the folder itself is no file to read or write.
pub(super) fn are_made(rt: HostRuntime, folder: &str) -> bool {
    match format!(in rt.alloc(); "{folder}/out") {
        Ok(path) => {
            is_made(rt, path.as_str())
                && holds(rt, folder, Err(Failed))
                && !is_written(rt, folder, b"a")
        }
        Err(_) => false,
    }
}

/// Is interrupted so often before each byte, and takes no more than so many bytes at once.
#[derive(Drop)]
struct Halting {
    times: u8,
    halted: u8,
    most: usize,
}

impl Halting {
    fn new(times: u8, most: usize) -> Halting {
        Halting {
            times,
            halted: 0,
            most,
        }
    }

    fn halts(&mut self) -> bool {
        if self.halted < self.times {
            self.halted += 1;
            return true;
        }
        self.halted = 0;
        false
    }
}

impl Read for Halting {
    fn read(&mut self, buf: &mut [u8]) -> io::Result<usize> {
        if self.halts() {
            return Err(Error::from(ErrorKind::Interrupted));
        }
        let Some(byte) = buf.first_mut() else {
            return Ok(0);
        };
        *byte = 7;
        Ok(1)
    }
}

impl Write for Halting {
    fn write(&mut self, bytes: &[u8]) -> io::Result<usize> {
        if self.halts() {
            return Err(Error::from(ErrorKind::Interrupted));
        }
        Ok(bytes.len().min(self.most))
    }

    fn flush(&mut self) -> io::Result<()> {
        Ok(())
    }
}

// Whether interrupted calls are tried again, and a write that takes nothing fails.
fn are_tried_again() -> bool {
    let mut two = [0; 2];
    let mut stopped = WriteSink::new(Halting::new(0, 0));
    read_full(&mut ReadSource::new(Halting::new(3, 1)), &mut two) == Ok(2)
        && two == [7, 7]
        && write_all(&mut WriteSink::new(Halting::new(3, 1)), b"ab") == Ok(())
        && stopped.write(b"a") == Err(Failed)
        && stopped.write(b"") == Ok(0)
}

#[test]
fn interrupted_calls_and_the_standard_streams_serve(rt: HostRuntime) {
    assert!(rt; are_tried_again());
    assert!(rt; WriteSink::new(rt.stdout()).write(b"") == Ok(0));
    assert!(rt; ReadSource::new(rt.stdin()).read(&mut []) == Ok(0));
}
