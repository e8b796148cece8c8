//! A route: what a track, a bus or the master does to its sound, and where that leads (Ardour's manual).
use crate::lists::SendList;
use ses_units::{Gain, Lane, Mode, Name};

/// A way into another route beside the output.
#[derive(Clone, Copy, Debug, PartialEq, Eq)]
pub struct SendLink {
    /// The index of the route that takes it, a bus or the master.
    pub to: u32,
    /// Whether it is taken before the route's fader.
    pub pre: bool,
    /// What it is scaled by.
    pub gain: Gain,
}

/// What a route stands for.
#[derive(Clone, Copy, Debug, PartialEq, Eq)]
pub enum RouteKind {
    /// The track of that index in the session, from 0.
    Track(u32),
    /// A bus.
    Bus,
    /// The master, whose sound is that of the run.
    Master,
}

/// A route. A session lists the tracks' routes first, then the busses, then the master.
#[derive(Drop)]
pub struct Route {
    /// No other route of the session has this name; the master's is `master`.
    pub name: Name,
    /// What it stands for.
    pub kind: RouteKind,
    /// 1 or 2.
    pub channels: u16,
    /// The gain in mode manual, and where the lane has no point.
    pub fader: Gain,
    /// Whether the fader or the lane is heard.
    pub mode: Mode,
    /// The gains along the timeline in mode play.
    pub lane: Lane,
    /// A muted route gives nothing.
    pub muted: bool,
    /// What one channel is scaled by on its way into the first of two.
    pub left: Gain,
    /// The same for the second of two.
    pub right: Gain,
    /// The index of the route that its output leads to; none of the master.
    pub target: Option<u32>,
    /// Up to 8 further ways out, to different routes; none of the master.
    pub sends: SendList,
}
