//! One frame of a track and of the master, worked out plainly: what every faster rendering is held against.
#![tactic(auto)]

mod links;
mod offline;
mod routes;
mod walk;

pub use offline::Offline;
