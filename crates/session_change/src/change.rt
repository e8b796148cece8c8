//! A change of a session, by the indices of what it changes.
ghost use Rattle.std.specs.Prelude.{◌≡◌};
ghost use Rattle.session_change.specs.Change.{change_seen, relinks, list_of};

use ses_units::{Gain, Mode, Point};
use session_model::{Region, SendLink};

/// A change of a session. Tracks and routes go by their indices, from 0.
#[derive(Clone, Copy, Debug, PartialEq, Eq)]
pub enum Change {
    /// The session stays: what the transport does, the command itself says.
    TransportOnly,
    /// A track is armed, or not.
    Armed { track: u32, on: bool },
    /// A track is soloed, or not.
    Soloed { track: u32, on: bool },
    /// A route is muted, or not.
    Muted { route: u32, on: bool },
    /// A route's fader is set.
    Faded { route: u32, gain: Gain },
    /// A route's gains into two channels are set.
    Panned { route: u32, left: Gain, right: Gain },
    /// A route's fader or its lane is heard.
    InMode { route: u32, mode: Mode },
    /// A lane gets a point, in place of the one there.
    PointSet { route: u32, point: Point },
    /// A lane loses the point at a place, in frames.
    PointUnset { route: u32, at: u64 },
    /// A route's output leads to another route.
    Leads { route: u32, to: u32 },
    /// A route gets a send, in place of the one to the same route.
    SendSet { route: u32, link: SendLink },
    /// A route sends to another no more.
    SendUnset { route: u32, to: u32 },
    /// A track gets a region, in place of the one of its id.
    RegionPut { track: u32, region: Region },
    /// A track loses the region of an id.
    RegionTaken { track: u32, id: u32 },
}

impl Change {
    /// Whether it changes which routes feed which.
    pub fn relinks(&self) -> bool
        ensures { result ≡ relinks (change_seen self.now) }
    {
        match self {
            Change::Leads { .. } | Change::SendSet { .. } | Change::SendUnset { .. } => true,
            Change::TransportOnly
            | Change::Armed { .. }
            | Change::Soloed { .. }
            | Change::Muted { .. }
            | Change::Faded { .. }
            | Change::Panned { .. }
            | Change::InMode { .. }
            | Change::PointSet { .. }
            | Change::PointUnset { .. }
            | Change::RegionPut { .. }
            | Change::RegionTaken { .. } => false,
        }
    }

    /// The track whose playlist it changes, if it changes one.
    pub fn track(&self) -> Option<u32>
        ensures { result ≡ list_of (change_seen self.now) }
    {
        match *self {
            Change::RegionPut { track, .. } | Change::RegionTaken { track, .. } => Some(track),
            Change::TransportOnly
            | Change::Armed { .. }
            | Change::Soloed { .. }
            | Change::Muted { .. }
            | Change::Faded { .. }
            | Change::Panned { .. }
            | Change::InMode { .. }
            | Change::PointSet { .. }
            | Change::PointUnset { .. }
            | Change::Leads { .. }
            | Change::SendSet { .. }
            | Change::SendUnset { .. } => None,
        }
    }
}
