//! Control's thread by itself: scripts, with what its rings hold, what it answers, publishes and allows.
#![tactic(auto)]

#[cfg(test)]
mod bench;
#[cfg(test)]
mod failing;
#[cfg(test)]
mod leading;
#[cfg(test)]
mod rows;
