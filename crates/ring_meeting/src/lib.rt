//! How the butler's ends of its rings meet the other ends, whoever holds those: so that neither of
//! the two has to know the other.
#![tactic(auto)]

mod other_ends;

pub use other_ends::OtherEnds;
