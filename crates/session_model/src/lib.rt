//! The types of a session: sources, tracks with their regions, routes, edits, and when a session is valid.
#![tactic(auto)]

mod edit;
mod file_name;
mod frames;
mod key;
mod laws;
mod lists;
mod mem_frames;
mod mem_sound;
mod places;
mod playlist;
mod refusal;
mod region;
mod route;
mod session;
mod starts;
mod track;
mod try_clone;

pub use edit::Edit;
pub use file_name::{FileName, FileNameRefusal, is_file_name};
pub use frames::Frames;
pub use key::Key;
pub use laws::{form_is_tested, playlists_are_in_order, validity_is_tested};
pub use lists::{EditList, RouteList, Samples, SendList, SourceList, TrackList};
pub use mem_frames::MemFrames;
pub use mem_sound::MemSound;
pub use playlist::Playlist;
pub use refusal::{Part, Place, SessionRefusal};
pub use region::Region;
pub use route::{Route, RouteKind, SendLink};
pub use session::{Session, SourceDecl};
pub use track::Track;
