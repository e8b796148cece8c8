//! How the letters of a run on one thread lead it on, whatever lines of control are still to come.
//! Each law is the contract of a function that does nothing, and its statement stands in `specs/`.
#![tactic(auto)]

mod answered;
mod given;
mod paced;
mod rest;
mod truth;

pub use answered::{
    all_is_answered_at_the_end, each_line_is_answered, it_goes_by_the_edits,
    nothing_is_answered_at_first,
};
pub use given::{a_run_begins, control_goes_on, the_workers_go_on};
pub use paced::{
    all_is_paced_at_the_end, each_entry_is_paced, each_line_is_paced, it_is_paced_still,
    nothing_is_paced_at_first,
};
pub use rest::{
    a_line_is_carried_out, no_letter_is_needed, the_next_letter_leads_on, the_rest_begins,
    the_run_is_the_machines,
};
pub use truth::{answers_hold, answers_hold_on, what_holds_is_true};
