//! What is kept of a track while its takes are written.
ghost use Rattle.std.specs.Prelude.{◌≡◌, ◌<◌, ◌^◌};

use ses_units::Name;

/// A block of a track, by its take and its place in it.
#[derive(Clone, Copy)]
pub(crate) struct Place {
    /// The take's number, from 1.
    pub take: u32,
    /// The block's index in it, from 0.
    pub index: u32,
}

impl Place {
    /// The place of a block by its take and index, whose numbers have 32 bits.
    pub(crate) fn new(take: u32, index: u32) -> Place
        ensures place { result ≡ record { take = take; index = index } }
        ensures small { take < 2 ^ 32 }
    {
        Place { take, index }
    }
}

/// A take at which a write failed.
#[derive(Clone, Copy)]
pub(crate) struct FailedTake {
    /// Its track, from 0.
    pub track: u32,
    /// Its number, from 1.
    pub take: u32,
}

/// A track as its take files need it.
#[derive(Clone, Copy)]
pub(crate) struct TrackTakes {
    /// The name of its route.
    pub name: Name,
    /// Its channels, 1 or 2.
    pub channels: u16,
    /// The last block that its files were given.
    pub last: Option<Place>,
}
