//! Opens a file to be written anew, where that destroys nothing that is read or that lies elsewhere.
use crate::file_id::FileId;
use crate::files_read::FilesRead;
use crate::hints;
use ses_io::Failed;
use std::fs;
use std::fs::{Metadata, OpenFile, OpenOptions};
use std::io::{Eprint, ErrorKind};
use std::path::Path;
use std::rt::Files;

// The one link out of the folder that may lead to a file: a shell opened that one to be written.
const STANDARD_OUTPUT: &str = "/dev/stdout";

// Whether the file that the link at the path leads to lies in the path's folder or below it.
fn stays_in_folder<R: Files + AllocGlobal>(rt: &R, path: &str) -> Result<bool, Failed> {
    let folder = match Path::new(path).parent() {
        Some(folder) if !folder.as_str().is_empty() => folder.as_str(),
        Some(_) | None => ".",
    };
    let folder = fs::canonicalize(rt, folder).map_err(|_| Failed)?;
    let led_to = fs::canonicalize(rt, path).map_err(|_| Failed)?;
    Ok(led_to.starts_with(folder.as_path()))
}

// Whether a file may be written through the link at the path.
fn may_follow<R: Files + AllocGlobal>(rt: &R, path: &str) -> Result<bool, Failed> {
    let link = fs::read_link(rt, path).map_err(|_| Failed)?;
    if link.as_str() == STANDARD_OUTPUT {
        return Ok(true);
    }
    stays_in_folder(rt, path)
}

// What is at the path, None where nothing is. A link that leads to nothing is refused, and one to a file elsewhere.
fn target<R>(rt: &R, path: &str) -> Result<Option<Metadata>, Failed>
where
    R: Files + AllocGlobal + Eprint,
{
    let found = match fs::symlink_metadata(rt, path) {
        Ok(found) => found,
        Err(e) if e.kind() == ErrorKind::NotFound => return Ok(None),
        Err(_) => return Err(Failed),
    };
    if !found.is_symlink() {
        return Ok(Some(found));
    }
    let led_to = fs::metadata(rt, path).map_err(|_| Failed)?;
    if led_to.is_file() && !may_follow(rt, path)? {
        hints::leads_out(rt, path);
        return Err(Failed);
    }
    Ok(Some(led_to))
}

// Opens what is there. A file is emptied only if it is still the one that was looked at.
fn open_target<R: Files>(rt: &R, path: &str, target: &Metadata) -> Result<R::File, Failed> {
    let mut how = OpenOptions::new();
    let file = how.write(true).open(rt, path).map_err(|_| Failed)?;
    let opened = file.metadata().map_err(|_| Failed)?;
    if FileId::of(&opened) != FileId::of(target) {
        return Err(Failed);
    }
    if opened.is_file() {
        file.set_len(0).map_err(|_| Failed)?;
    }
    Ok(file)
}

/// Opens what the path names to be written from its start: a file, which is emptied or made, a pipe
/// or a device. Before anything is opened it is refused where it is a file that is read, or is
/// reached by a link that leads out of the folder or to nothing.
pub(crate) fn open_anew<R: Files + AllocGlobal + Eprint>(
    rt: &R,
    path: &str,
    read: &FilesRead,
) -> Result<R::File, Failed> {
    let Some(target) = target(rt, path)? else {
        let mut how = OpenOptions::new();
        let how = how.write(true).create_new(true);
        return how.open(rt, path).map_err(|_| Failed);
    };
    if target.is_file() && read.has(FileId::of(&target)) {
        hints::is_read(rt, path);
        return Err(Failed);
    }
    open_target(rt, path, &target)
}
