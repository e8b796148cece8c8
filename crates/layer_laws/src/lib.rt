//! The laws of layers that rendering stands on: regions laid the lowest first, how far from silence they are heard, and
//! that a span needs only the regions that meet it.
//! Each law is the contract of a function that does nothing, and its statement stands in `specs/`.
#![tactic(auto)]

mod near;
mod spans;

pub use near::{layers_stay_near, lays_from_the_lowest, over_stays_near, regions_stay_near};
pub use spans::{
    only_covering_is_heard, only_covering_matter, places_are_of_those_meeting, places_are_there,
};
