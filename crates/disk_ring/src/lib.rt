//! A ring of one producer and one consumer that swaps boxes, so putting and taking need no memory.
//!
//! A *husk* is an empty box: its item was used, and it travels back through the ring to be filled again. Two ends *meet*
//! where one thread has both: each tells the other what it knows.
#![tactic(auto)]

mod ends;
mod joined;
mod lists;
mod nothing;
mod plays;
mod ring_in;
mod ring_out;
mod ring_table;
mod roomy;
mod steps;
mod tells;

pub use ends::ring;
pub use joined::{Ring, meet, meet_again, rejoin};
pub use lists::{RingInList, RingOutList};
pub use nothing::Nothing;
pub use ring_in::{Full, RingIn};
pub use ring_out::RingOut;
pub use roomy::Roomy;
