//! Reads and writes of real files, each tried again where it was only interrupted.
ghost use Rattle.std.specs.Prelude.{◌<◌, ◌≤◌, length, IfOk};

use ses_io::Failed;
use std::io::{ErrorKind, Read, Write};
use std::os::unix::fs::FileExt;

pub(crate) fn read<T: Read>(reader: &mut T, buf: &mut [u8]) -> Result<usize, Failed>
    ensures { IfOk result (λ n. n ≤ length buf.new) }
{
    for _try in 0..u64::MAX {
        match reader.read(buf) {
            Ok(n) => return Ok(n),
            Err(e) if e.kind() == ErrorKind::Interrupted => {}
            Err(_) => return Err(Failed),
        }
    }
    Err(Failed)
}

/// A write of a piece that isn't empty fails where it takes nothing.
pub(crate) fn write<T: Write>(writer: &mut T, bytes: &[u8]) -> Result<usize, Failed>
    ensures bound { IfOk result (λ n. n ≤ length bytes.now) }
    ensures some { IfOk result (λ n. 0 < length bytes.now → 0 < n) }
{
    if bytes.is_empty() {
        return Ok(0);
    }
    for _try in 0..u64::MAX {
        match writer.write(bytes) {
            Ok(0) => return Err(Failed),
            Ok(n) => return Ok(n),
            Err(e) if e.kind() == ErrorKind::Interrupted => {}
            Err(_) => return Err(Failed),
        }
    }
    Err(Failed)
}

pub(crate) fn read_at<F: FileExt>(file: &F, at: u64, buf: &mut [u8]) -> Result<usize, Failed>
    ensures { IfOk result (λ n. n ≤ length buf.new) }
{
    for _try in 0..u64::MAX {
        match file.read_at(buf, at) {
            Ok(n) => return Ok(n),
            Err(e) if e.kind() == ErrorKind::Interrupted => {}
            Err(_) => return Err(Failed),
        }
    }
    Err(Failed)
}

/// A write of a piece that isn't empty fails where it takes nothing.
pub(crate) fn write_at<F: FileExt>(file: &F, at: u64, bytes: &[u8]) -> Result<usize, Failed>
    ensures bound { IfOk result (λ n. n ≤ length bytes.now) }
    ensures some { IfOk result (λ n. 0 < length bytes.now → 0 < n) }
{
    if bytes.is_empty() {
        return Ok(0);
    }
    for _try in 0..u64::MAX {
        match file.write_at(bytes, at) {
            Ok(0) => return Err(Failed),
            Ok(n) => return Ok(n),
            Err(e) if e.kind() == ErrorKind::Interrupted => {}
            Err(_) => return Err(Failed),
        }
    }
    Err(Failed)
}
