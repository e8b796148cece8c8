//! The graph of a session's routes: an order with feeders first, and the links that would close a cycle.
#![tactic(auto)]

mod feeders;
mod laws;
mod list;
mod ordering;
mod places;
mod reach;
mod refusal;

pub use laws::{
    closing_is_a_cycle, first_on_cycle_is_found, none_is_found_without_cycle,
    open_links_make_no_cycle, reaching_is_tested,
};
pub use list::Order;
pub use ordering::order;
pub use reach::closes;
pub use refusal::OrderRefusal;
