//! What a run notes of one cycle.
use crate::note::Note;
use arrayvec::ArrayVec;

/// What the transport did in a cycle (own).
#[derive(Clone, Copy, Debug, PartialEq, Eq)]
pub enum State {
    /// It didn't roll.
    Stopped,
    /// It waited for the first block of its generation: this track, by its index from 0, was the first without it, and so
    /// many of its items had been received.
    Seeking { track: u32, tail: u64 },
    /// It played this block of this generation, both from 0.
    Rolling { generation: u32, seq: u32 },
}

/// One cycle.
#[derive(Debug, Drop, PartialEq, Eq)]
pub struct Entry {
    /// The number of the edition that the process entered.
    pub edition: u32,
    /// What is heard from here on is as this edition has it, or newer.
    pub settled: u32,
    pub state: State,
    /// One for each track, in the order of tracks.
    pub notes: ArrayVec<Note, 32>,
}
