//! The laws of the core machine: every event keeps what stands, and what stands is what a run promises.
//! Each law is the contract of a function that does nothing, and its statement stands in `specs/`.
#![tactic(auto)]

mod acknowledgements;
mod answers;
mod ends;
mod journals;
mod machine;
mod rest;
mod sends;
mod serial;

pub use acknowledgements::turns_go_by_the_newest;
pub use answers::{edits_are_those_of_lines, replies_are_those_of_lines, replies_are_true};
pub use ends::{cycle_makes_its_entry, every_run_ends, looks_leave_as_much, turns_leave_less};
pub use journals::{standing_is_lawful, standing_is_truthful};
pub use machine::{every_event_keeps_it, every_list_keeps_it, stands_at_first};
pub use rest::{the_plain_run_is_reached, the_rest_is_one, the_rest_leaves_nothing};
pub use sends::{few_are_ever_sent, none_is_sent_twice, numbers_suffice, standing_is_ordered};
pub use serial::serial_is_plain;
