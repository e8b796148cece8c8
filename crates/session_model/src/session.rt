//! A session: its sources, routes and tracks, and the form of its sound.
use crate::file_name::FileName;
use crate::lists::{RouteList, SourceList, TrackList};
use ses_units::{Bits, Name};

/// A sound file that regions show parts of.
#[derive(Drop)]
pub struct SourceDecl {
    /// No other source of the session has this name; a track may.
    pub name: Name,
    /// The file that holds it.
    pub file: FileName,
    /// 1 or 2, as the file has.
    pub channels: u16,
}

/// A session. `IsValid` of `specs/Valid.antt` says which ones the engine takes.
#[derive(Drop)]
pub struct Session {
    /// Frames a second, 8,000..192,000.
    pub rate: u32,
    /// The bits of a sample in the master and in the takes.
    pub bits: Bits,
    /// The frames of a block, 1..4,096.
    pub block: u32,
    /// The items of a ring, 2..256; times the block at most 65,536.
    pub depth: u32,
    /// How the names of the take files begin.
    pub takes: Name,
    /// At most 64.
    pub sources: SourceList,
    /// At most 64: the tracks' routes in their order, the busses, the master.
    pub routes: RouteList,
    /// At most 32.
    pub tracks: TrackList,
}
