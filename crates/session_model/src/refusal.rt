//! Why a session's text is refused, and at which place and key.
use crate::key::Key;
use ses_units::Name;

/// A part of a session's text.
#[derive(Clone, Copy, Debug, PartialEq, Eq)]
pub enum Part {
    /// The whole document.
    Top,
    /// The table `session`.
    Session,
    /// An entry of `source`.
    Source,
    /// An entry of `track`.
    Track,
    /// A region of a track.
    Region,
    /// A send of a track.
    TrackSend,
    /// An entry of `bus`.
    Bus,
    /// A send of a bus.
    BusSend,
    /// The table `master`.
    Master,
}

/// Where in a session's text something stands.
#[derive(Clone, Copy, Debug, PartialEq, Eq)]
pub struct Place {
    /// The part.
    pub part: Part,
    /// From 1, within the array of sources, tracks or busses; of a region or a send the row of its
    /// track or bus; 1 of a single table.
    pub row: u32,
    /// From 1, of a region or a send; else 0.
    pub item: u32,
}

/// Why a session is refused. Names are those of routes and sources.
#[derive(Clone, Copy, PartialEq, Eq)]
pub enum SessionRefusal {
    /// There is no file of that name.
    Absent,
    /// The file has so many bytes, above 8,388,608.
    TooLong(u64),
    /// The bytes are no TOML document.
    NotToml,
    /// A part has a key that none of its kind has.
    Unknown(Place),
    /// A key that has no default isn't there.
    Missing(Place, Key),
    /// A key's value is of another kind.
    Kind(Place, Key),
    /// A key's value is outside what is allowed.
    Range(Place, Key),
    /// A route or a source whose name stood before.
    Twice(Name),
    /// A route with two sends to one name.
    SendTwice(Name),
    /// A track with two regions of that id.
    RegionTwice(Name, u32),
    /// A region's source that isn't there.
    NoSource(Name),
    /// An output or a send that names no route.
    NoRoute(Name),
    /// An output or a send that names a track.
    NotBus(Name),
    /// A track with a region whose source has other channels, or a route of two channels that
    /// feeds one of one.
    Channels(Name),
    /// A route that reaches itself by outputs and sends.
    Cycle(Name),
}
