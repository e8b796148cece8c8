//! Values from outside for take files: what is recorded of each track, block by block, and what a fault leaves of it.
#![tactic(auto)]

#[cfg(test)]
mod bench;
#[cfg(test)]
mod counted;
#[cfg(test)]
mod faults;
#[cfg(test)]
mod heads;
#[cfg(test)]
mod left_out;
#[cfg(test)]
mod media;
#[cfg(test)]
mod sessions;
#[cfg(test)]
mod takes;
