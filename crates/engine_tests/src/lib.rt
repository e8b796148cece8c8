//! Values from outside, worked out beside the code: for editions and journals, what is opened, and whole runs.
#![tactic(auto)]

#[cfg(test)]
mod bench;
#[cfg(test)]
mod editions;
#[cfg(test)]
mod journals;
#[cfg(test)]
mod plans;
#[cfg(test)]
mod runs;
