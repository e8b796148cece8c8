//! A judge of a journal, entry by entry: it keeps a few numbers of each track in place of the entries behind it.
#![tactic(auto)]

mod advance;
mod judge;
mod notes;
mod plays;
mod state;
mod tracks;

pub use judge::Judge;
