//! Values from outside for the cycles of a process, by hand: the tests hold the other ends of its rings.
#![tactic(auto)]

#[cfg(test)]
mod bench;
#[cfg(test)]
mod editing;
#[cfg(test)]
mod opening;
#[cfg(test)]
mod other_ends;
#[cfg(test)]
mod runs;
#[cfg(test)]
mod sessions;
#[cfg(test)]
mod steps;
