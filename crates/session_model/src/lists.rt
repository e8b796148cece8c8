//! The lists of a session: each has a fixed room, and contracts see its items and its room.
use crate::edit::Edit;
use crate::route::{Route, SendLink};
use crate::session::SourceDecl;
use crate::track::Track;
use ses_io::FixedList;

/// The sources of a session.
pub type SourceList = FixedList<SourceDecl>;

/// The routes of a session.
pub type RouteList = FixedList<Route>;

/// The tracks of a session.
pub type TrackList = FixedList<Track>;

/// The sends of a route.
pub type SendList = FixedList<SendLink>;

/// The accepted edits of a run, in order.
pub type EditList = FixedList<Edit>;

/// Samples at 24-bit scale, frame by frame, channels side by side.
pub type Samples = FixedList<i32>;
