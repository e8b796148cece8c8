//! What an accepted command changes of a session, as a value, and the call that makes it in place.
#![tactic(auto)]

mod change;
mod faders;
mod lanes;
mod laws;
mod links;
mod making;
mod regions;
mod sends;
mod switches;

pub use change::Change;
pub use laws::a_change_that_relinks_nothing_keeps_the_order;
pub use making::make;
