//! Sources opened and read, in memory and in a folder, with values from outside.
#![tactic(auto)]

#[cfg(test)]
mod sources;
