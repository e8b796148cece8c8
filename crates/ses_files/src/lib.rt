//! The files and streams of the system as parts of the outside, which tell nothing of what they hold.
#![tactic(auto)]

mod anew;
mod counted;
mod file_id;
mod file_sink;
mod file_source;
mod files_read;
mod folder;
mod folder_media;
mod hints;
mod kept_files;
mod made_files;
mod read_source;
mod tries;
mod write_sink;

pub use file_sink::FileSink;
pub use file_source::FileSource;
pub use files_read::FilesRead;
pub use folder_media::FolderMedia;
pub use read_source::ReadSource;
pub use write_sink::WriteSink;
