//! Runs of a recorder that are refused or fail: by what is wrong with their files, by which objects of the outside fail, and each call of
//! each of these failing in turn.
#![tactic(auto)]

#[cfg(test)]
mod faults;
#[cfg(test)]
mod repeated;
#[cfg(test)]
mod rows;
#[cfg(test)]
mod runs;
#[cfg(test)]
mod standing;
