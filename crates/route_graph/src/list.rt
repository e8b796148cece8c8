//! An order of the routes of a session: each route once, and none before one that feeds it.
ghost use Rattle.std.specs.Prelude.{◌≡◌, length, IfOk, IfErr};
ghost use Rattle.session_model.specs.Valid.{IsValid};
ghost use Rattle.session_model.specs.Views.{routes_of};
ghost use Rattle.route_graph.specs.Order.{IsOrder};

use crate::feeders::peeled;
use crate::places::Places;
use crate::refusal::OrderRefusal;
use ses_io::{NoMemory, TryClone};
use session_model::Session;
use std::alloc::Global;
use std::marker::Model;

/// The places of the routes of a session, in the order in which they are processed. Contracts see their list.
#[derive(Drop)]
pub struct Order {
    routes: Vec<u32>,
}

impl Model for Order {
    ghost use Rattle.std.specs.Prelude.{ℕ, List};

    ghost Value = { List ℕ };

    ghost view = { λ o. o.routes.items };
}

impl Order {
    /// The places of the routes in their order, from 0.
    pub fn routes(&self) -> &[u32]
        ensures { result.now ≡ self.now }
    {
        self.routes.as_slice()
    }

    /// Makes it an order of the session, whatever order it was. It takes no memory.
    pub fn renew(&mut self, s: &Session)
        requires valid { IsValid s.now }
        requires long { length self.old ≡ length s.now.routes.items }
        ensures { IsOrder (routes_of s.now) self.new }
    {
        let places = peeled(s);
        self.routes.copy_from_slice(places.as_slice());
    }
}

impl TryClone for Order {
    fn try_clone(&self, alloc: Global) -> Result<Self, NoMemory> {
        Ok(Order {
            routes: self.routes.to_vec(alloc)?,
        })
    }
}

/// Places as an order.
pub(crate) fn listed(alloc: Global, places: &Places) -> Result<Order, OrderRefusal>
    ensures order { IfOk result (λ o. o ≡ places.now) }
    ensures refusal { IfErr result (λ e. e ≡ OrderRefusal.NoMemory) }
{
    Ok(Order {
        routes: places.as_slice().to_vec(alloc)?,
    })
}
