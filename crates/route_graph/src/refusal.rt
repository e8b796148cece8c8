//! Why routes have no order.
use std::alloc::AllocError;
use thiserror::Error;

/// Why routes have no order.
#[derive(Debug, Drop, PartialEq, Eq, Error)]
pub enum OrderRefusal {
    /// The index of the first route that leads back to itself by outputs and sends.
    #[error("route {0} leads back to itself")]
    Cycle(u32),
    /// The order wants memory that isn't there.
    #[error("no memory")]
    NoMemory,
}

impl From<AllocError> for OrderRefusal {
    ghost use Rattle.std.specs.Prelude.{◌≡◌};
    ghost use Rattle.route_graph.specs.declared.refusal.OrderRefusal.TheVariants.{NoMemory};

    ghost from_gives = { λ e r. r ≡ NoMemory };

    fn from(_error: AllocError) -> Self {
        OrderRefusal::NoMemory
    }
}
