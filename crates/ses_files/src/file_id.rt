//! Which file of the system stands behind a name.
use std::fs::Metadata;
use std::os::unix::fs::MetadataExt;

/// The device that a file lies on, and its number there: the same behind each of its names.
#[derive(Clone, Copy, PartialEq, Eq)]
pub(crate) struct FileId {
    device: u64,
    inode: u64,
}

impl FileId {
    pub(crate) fn of(data: &Metadata) -> FileId {
        FileId {
            device: data.dev(),
            inode: data.ino(),
        }
    }
}
