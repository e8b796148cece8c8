//! What a session's text says, part by part: names are still names.
use ses_io::FixedList;
use ses_units::{Bits, Gain, Lane, Mode, Name, Shape};
use session_model::SourceList;

/// The version of the rules by which a session's text is read: a key that joined later is none of an earlier version.
#[derive(Clone, Copy, PartialEq, Eq)]
pub enum Version {
    /// The first: every fade is linear.
    One,
    /// With shapes of fades.
    Two,
}

/// The table `session`.
#[derive(Clone, Copy)]
pub struct Head {
    pub version: Version,
    /// Frames a second.
    pub rate: u32,
    /// The bits of a sample in the master and in the takes.
    pub bits: Bits,
    /// The channels of the master.
    pub channels: u16,
    /// The frames of a block.
    pub block: u32,
    /// The items of a ring.
    pub depth: u32,
    /// How the names of the take files begin.
    pub takes: Name,
}

/// A send.
#[derive(Clone, Copy)]
pub struct SendText {
    /// The name of the route that it leads to.
    pub to: Name,
    /// Whether it is taken before the fader.
    pub pre: bool,
    pub gain: Gain,
}

/// How loud a route is: its fader's gain, and whether it is muted.
#[derive(Clone, Copy)]
pub struct Level {
    pub gain: Gain,
    pub muted: bool,
}

/// How a route's fader moves: by hand, or by its lane.
#[derive(Drop)]
pub struct Automation {
    pub mode: Mode,
    pub lane: Lane,
}

/// The name and the channels of a track or a bus.
#[derive(Clone, Copy)]
pub struct Named {
    pub name: Name,
    pub channels: u16,
}

/// What a track and a bus do to their sound, and where it leads.
#[derive(Drop)]
pub struct ChannelStrip {
    /// The name of the route that the output leads to.
    pub out: Name,
    pub level: Level,
    pub left: Gain,
    pub right: Gain,
    pub automation: Automation,
}

/// A track's or a bus's place at the desk.
#[derive(Drop)]
pub struct RouteText {
    pub named: Named,
    pub strip: ChannelStrip,
    pub sends: FixedList<SendText>,
}

/// What a track takes from the input.
#[derive(Clone, Copy)]
pub struct InputSettings {
    /// The first of the input's channels, from 0.
    pub input: Option<u16>,
    pub solo: bool,
    pub armed: bool,
}

/// The master.
#[derive(Drop)]
pub struct MasterText {
    pub level: Level,
    pub automation: Automation,
}

/// Which frames of its source a region shows, and where: `length` frames from `start` on, at `at`.
#[derive(Clone, Copy)]
pub struct Span {
    pub start: u64,
    pub length: u64,
    pub at: u64,
}

/// The frames of a region's fades, and their shapes.
#[derive(Clone, Copy)]
pub struct Fades {
    pub fade_in: u64,
    pub fade_out: u64,
    pub shape_in: Shape,
    pub shape_out: Shape,
}

/// A region.
#[derive(Clone, Copy)]
pub struct RegionText {
    pub id: u32,
    /// The name of its source.
    pub source: Name,
    pub span: Span,
    pub layer: u32,
    pub gain: Gain,
    pub opaque: bool,
    pub fades: Fades,
}

/// What a track has beside its place at the desk, with its name again.
#[derive(Drop)]
pub struct TrackOwn {
    pub named: Named,
    pub settings: InputSettings,
    pub regions: FixedList<RegionText>,
}

/// A track.
#[derive(Drop)]
pub struct TrackText {
    pub route: RouteText,
    pub own: TrackOwn,
}

/// A whole text, each key in range.
#[derive(Drop)]
pub struct Written {
    pub head: Head,
    pub sources: SourceList,
    pub tracks: FixedList<TrackText>,
    pub busses: FixedList<RouteText>,
    pub master: MasterText,
}
