//! Which lines of a report stand, for a session and the bytes of its master's file, and what it means that all do.
#![tactic(auto)]

mod laws;

pub use laws::all_stand_where_all_agree;
