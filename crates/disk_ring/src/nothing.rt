//! The answer of an end that found no item.

/// No item was there. The husk comes back, with the tail that was loaded: the number sent by then.
#[derive(Drop)]
pub enum Nothing<T> {
    /// The ring wasn't closed.
    Empty { husk: Box<T>, tail: u64 },
    /// The ring was closed, so nothing more comes.
    Closed { husk: Box<T>, tail: u64 },
}
