//! A track: a playlist with what is recorded into it.
use crate::playlist::Playlist;

/// A track of a session. Its name and its channels are its route's.
#[derive(Drop)]
pub struct Track {
    /// The index of its route, which is the track's own.
    pub route: u32,
    /// Where a track is soloed, those that aren't give nothing.
    pub solo: bool,
    /// Whether it records when the session does. Only a track with an input is armed.
    pub armed: bool,
    /// The first of the input's 8 channels that it takes, from 0.
    pub input: Option<u16>,
    /// Its regions.
    pub list: Playlist,
}
