//! Worked rows of the ring of grants.
#![tactic(auto)]

#[cfg(test)]
mod rows;
