//! What control's calls do together at its letter: a law, which is the contract of a function that does nothing and whose statement
//! stands in `specs/`.
#![tactic(auto)]

mod laws;

pub use laws::the_letter_is_done;
