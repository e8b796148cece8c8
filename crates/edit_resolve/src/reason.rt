//! Why an edit isn't accepted.
use ses_units::Name;

/// What is full.
#[derive(Clone, Copy, PartialEq, Eq)]
pub enum Bound {
    /// A run has at most 10,000 accepted edits.
    Edits,
    /// A lane has at most 1,024 points.
    Points,
    /// A route has at most 8 sends.
    Sends,
    /// A playlist has at most 256 regions.
    Regions,
}

/// The first reason that holds. Each names what the edit asked for.
#[derive(Clone, Copy, PartialEq, Eq)]
pub enum Refusal {
    /// No further one has room.
    Limit(Bound),
    /// No route has that name.
    NoRoute(Name),
    /// The route of that name is no track.
    NotTrack(Name),
    /// The route of that name is a track, which nothing feeds.
    NotBus(Name),
    /// No source has that name.
    NoSource(Name),
    /// The track has no region of that id.
    NoRegion(u32),
    /// The track has a region of that id already.
    RegionTwice(u32),
    /// The track takes no input, so it can't be armed.
    NoInput(Name),
    /// The master has neither output, sends, nor left and right gains.
    OnMaster,
    /// The gain is above 262,144.
    Gain(u64),
    /// The place, or the end that begins there, lies at or past 2^40.
    Far(u64),
    /// The loop has no place.
    LoopEmpty,
    /// No loop is in force.
    NoLoop,
    /// The lane has no point at that place.
    NoPoint(u64),
    /// The route sends nothing there.
    NoSend(Name),
    /// The numbers of channels don't go together.
    Channels(Name),
    /// The route would lead back to itself.
    Cycle(Name),
    /// The region's fades would be longer than the region.
    Fades(u32),
}
