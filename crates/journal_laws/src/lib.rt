//! What a lawful journal says, in the words of one who doubts it: acknowledgements, blocks, takes, replies, the order of what is
//! sent, and the sound of an export.
//! Each law is the contract of a function that does nothing, and its statement stands in `specs/`.
#![tactic(auto)]

mod export;
mod heard;
mod lines;
mod one_thread;
mod order;
mod takes;

pub use export::an_export_is_the_master;
pub use heard::{
    after_an_acknowledgement, blocks_count_up, each_plays_its_generation, nothing_goes_back,
};
pub use lines::{
    accepted_by_lines, patience_has_a_look, patience_of_one, plain_replies_are_replies,
};
pub use one_thread::{
    an_edit_is_in_the_next_cycle, each_entry_hears_its_edition, the_next_cycle_has_all_edits,
};
pub use order::ordered_as_worded;
pub use takes::{a_take_holds_its_input, takes_are_runs};
