//! The limits of sessions and runs, each said once (own).

/// The most routes of a session, the master among them.
pub const ROUTES: u32 = 64;

/// The most tracks of a session.
pub const TRACKS: u32 = 32;

/// The most sources of a session.
pub const SOURCES: u32 = 64;

/// The most sends of a route.
pub const SENDS: u32 = 8;

/// The most regions of a track.
pub const REGIONS: u32 = 256;

/// The most points of a lane.
pub const POINTS: usize = 1024;

/// Positions lie before this one, in frames.
pub const END: u64 = 1 << 40;

/// The loudest gain, in 65,536ths.
pub const LOUDEST: u32 = 262_144;

/// The longest block, in frames.
pub const BLOCK: u64 = 4_096;

/// The most blocks that are sent ahead.
pub const DEPTH: u64 = 256;

/// The most frames that are sent ahead.
pub const AHEAD: u64 = 65_536;

/// The most edits that a run accepts.
pub const EDITS: u32 = 10_000;

/// The most cycles of a run.
pub const CYCLES: u32 = 100_000;

/// The most bytes of a session's file.
pub const SESSION_BYTES: u64 = 8_388_608;
