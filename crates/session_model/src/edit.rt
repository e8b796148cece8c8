//! An edit: one variant for each control command that changes the session or its transport.
use ses_units::{Mode, Name, Shape};

/// A change that a control line asks for. Routes, tracks and sources go by their names, gains are
/// in 65,536ths, and places and lengths are in frames; an edit may ask for what is refused.
#[derive(Clone, Copy)]
pub enum Edit {
    /// The transport rolls.
    Roll,
    /// The transport stops.
    Stop,
    /// No edit and no cycle follows.
    Quit,
    /// Armed tracks record while the transport rolls, or not.
    Recording {
        on: bool,
    },
    /// The transport goes on at another place.
    Locate {
        to: u64,
    },
    /// The transport plays from one place to before another, again and again.
    Loop {
        from: u64,
        to: u64,
    },
    /// The loop ends.
    LoopOff,
    /// A track is armed, or not.
    Arm {
        track: Name,
        on: bool,
    },
    /// A track is soloed, or not.
    Solo {
        track: Name,
        on: bool,
    },
    /// A route is muted, or not.
    Mute {
        route: Name,
        on: bool,
    },
    /// A route's fader is set.
    Gain {
        route: Name,
        gain: u64,
    },
    /// A route's gains into two channels are set.
    Pan {
        route: Name,
        left: u64,
        right: u64,
    },
    /// A route's fader or its lane is heard.
    Mode {
        route: Name,
        mode: Mode,
    },
    /// A lane gets a point, in place of the one there.
    Point {
        route: Name,
        at: u64,
        gain: u64,
    },
    /// A lane loses a point.
    Unpoint {
        route: Name,
        at: u64,
    },
    /// A route's output leads to another route.
    Connect {
        route: Name,
        target: Name,
    },
    /// A route sends to another, in place of its send there.
    Send {
        route: Name,
        target: Name,
        pre: bool,
        gain: u64,
    },
    /// A route sends to another no more.
    Unsend {
        route: Name,
        target: Name,
    },
    /// A track gets an opaque region at unity without fades.
    Add {
        track: Name,
        id: u32,
        source: Name,
        start: u64,
        length: u64,
        at: u64,
        layer: u32,
    },
    /// A track loses a region.
    Remove {
        track: Name,
        id: u32,
    },
    /// A region stands at another place.
    Move {
        track: Name,
        id: u32,
        at: u64,
    },
    /// A region shows another part of its source.
    Trim {
        track: Name,
        id: u32,
        start: u64,
        length: u64,
    },
    /// A region lies on another layer.
    Layer {
        track: Name,
        id: u32,
        layer: u32,
    },
    /// A region covers what lies below it, or is mixed with it.
    Opaque {
        track: Name,
        id: u32,
        on: bool,
    },
    /// A region's own gain is set.
    RegionGain {
        track: Name,
        id: u32,
        gain: u64,
    },
    /// A region's fades are set.
    Fade {
        track: Name,
        id: u32,
        fade_in: u64,
        fade_out: u64,
    },
    /// The shapes of a region's fades are set.
    Shape {
        track: Name,
        id: u32,
        shape_in: Shape,
        shape_out: Shape,
    },
}
