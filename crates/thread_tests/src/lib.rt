//! Runs on three threads: by scripts a thousand times over, and drawn ones, each judged by the house's own definitions.
#![tactic(auto)]

#[cfg(test)]
mod drawn;
#[cfg(test)]
mod rows;
#[cfg(test)]
mod scripts;
#[cfg(test)]
mod session;
