//! Values from outside for gains, kernels, blocks of tracks, frames of the master and files of it.
#![tactic(auto)]

#[cfg(test)]
mod desks;
#[cfg(test)]
mod frames;
#[cfg(test)]
mod gains;
#[cfg(test)]
mod kernels;
#[cfg(test)]
mod layers;
#[cfg(test)]
mod masters;
