//! Values from outside for the layers at the ground: numbers, rings, boxes and the outside.
#![tactic(auto)]

#[cfg(test)]
mod boxes;
#[cfg(test)]
mod outside;
#[cfg(test)]
mod playlists;
#[cfg(test)]
mod rings;
#[cfg(test)]
mod units;
