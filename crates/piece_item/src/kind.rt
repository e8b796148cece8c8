//! What an item is: nothing, a piece of a track, or a mark.

/// What a box holds (own).
#[derive(Clone, Copy, Debug, PartialEq, Eq)]
pub enum Kind {
    /// Nothing: a box to be filled.
    Blank,
    /// One block of a track's samples.
    Piece {
        /// The track's index, from 0.
        track: u32,
        /// The generation that the block is of.
        generation: u32,
        /// The number of the block in its generation, from 0.
        seq: u32,
        /// The playlist edition that it was made by.
        touched: u32,
    },
    /// A mark: from a block of a generation on, all that was sent of the track is as an edition has it.
    Settled {
        /// The number of the edition.
        edition: u32,
        /// The generation of that edition.
        generation: u32,
        /// The first block that it speaks of.
        from: u32,
    },
}
