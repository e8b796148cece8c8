//! The published list as its writer and two readers see it, on one thread and on three.
#![tactic(auto)]

#[cfg(test)]
mod bench;
#[cfg(test)]
mod calls;
#[cfg(test)]
mod known;
#[cfg(test)]
mod refused;
#[cfg(test)]
mod threads;
