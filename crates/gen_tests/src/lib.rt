//! Values from outside for the lines of made sessions.
#![tactic(auto)]

#[cfg(test)]
mod lines;
