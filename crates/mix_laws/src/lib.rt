//! The laws of mixing: routes taken once each in an order have their inputs whole when they are reached.
//! Each law is the contract of a function that does nothing, and its statement stands in `specs/`.
#![tactic(auto)]

mod mixing;
mod wide;

pub use mixing::{
    along_goes_on, inputs_are_fed, order_is_whole, order_mixes, order_sums_all,
    tracks_take_their_own,
};
pub use wide::links_lead_wide;
