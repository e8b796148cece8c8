//! Worked runs of a recorder on one thread, in memory: by words, control lines and letters, with takes, and with hostile control.
#![tactic(auto)]

#[cfg(test)]
mod hostile;
#[cfg(test)]
mod rows;
#[cfg(test)]
mod runs;
#[cfg(test)]
mod seeds;
