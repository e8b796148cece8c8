//! Values from outside for what is made of a session: orders of routes, places and windows,
//! control lines, edits and refusals.
#![tactic(auto)]

#[cfg(test)]
mod edits;
#[cfg(test)]
mod lines;
#[cfg(test)]
mod places;
#[cfg(test)]
mod refusals;
#[cfg(test)]
mod replies;
#[cfg(test)]
mod route_orders;
#[cfg(test)]
mod row;
#[cfg(test)]
mod windows;
