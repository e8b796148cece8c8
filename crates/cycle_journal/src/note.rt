//! What an entry says of one track: what was heard of it, and what was taken of it.

/// What was heard of a track in a cycle (own).
#[derive(Clone, Copy, Debug, Default, PartialEq, Eq)]
pub enum Play {
    /// The transport didn't play.
    #[default]
    Silent,
    /// A piece by this playlist edition.
    Heard(u32),
    /// An underrun: no piece was there, and the track was silent. So many of its items had been
    /// received.
    Short(u64),
}

/// What was taken of a track's input in a cycle (own). Takes of a track count from 1, the blocks of a take from 0.
#[derive(Clone, Copy, Debug, Default, PartialEq, Eq)]
pub enum Take {
    /// The track wasn't recorded.
    #[default]
    Off,
    /// The block at this index of this take.
    Taken { take: u32, index: u32 },
    /// That block found its ring full, and is zeros in the file: so many blocks of the track had been flushed.
    Lost { take: u32, index: u32, head: u64 },
}

/// What an entry says of one track.
#[derive(Clone, Copy, Debug, Default, PartialEq, Eq)]
pub struct Note {
    pub play: Play,
    pub take: Take,
}
