//! The laws of commands: what they may change, what they leave, and which rule a refusal names.
//! Each law is the contract of a function that does nothing, and its statement stands in `specs/`.
#![tactic(auto)]

mod changes;
mod refusals;

pub use changes::{
    a_region_command_is_heard_on_its_track_alone, a_region_command_leaves_the_routes,
    a_route_command_touches_no_playlist, each_edition_plays_its_pieces, edits_keep_validity,
    fixed_stays, made_keeps_valid, resolved_may_be_made,
};
pub use refusals::{a_refusal_names_the_first_rule, an_edit_is_refused_by_the_first_rule};
