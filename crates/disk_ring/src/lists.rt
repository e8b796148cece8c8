//! Lists of ends: each has a fixed room, and contracts see its items and its room.
use crate::ring_in::RingIn;
use crate::ring_out::RingOut;
use ses_io::FixedList;

/// Ends that put, one a ring.
pub type RingInList<T> = FixedList<RingIn<T>>;

/// Ends that take, one a ring.
pub type RingOutList<T> = FixedList<RingOut<T>>;
