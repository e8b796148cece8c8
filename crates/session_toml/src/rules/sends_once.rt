//! No two sends of a route lead to one name.
ghost use Rattle.std.specs.Prelude.{◌≡◌, is_some};
ghost use Rattle.session_toml.specs.Rules as spec;

use super::alike::first_twice;
use session_model::SessionRefusal;
use session_walk::RouteText;

// Whether two sends of the route do.
fn repeats(route: &RouteText) -> bool
    ensures { result ≡ is_some (spec.first_twice spec.same_send route.now.sends.items) }
{
    first_twice(route.sends.as_slice()).is_some()
}

/// Refuses the first route of which two sends do.
pub(crate) fn sends_once(routes: &[RouteText]) -> Result<(), SessionRefusal>
    ensures { result ≡ spec.sends_once routes.now }
{
    for route in routes {
        if repeats(route) {
            return Err(SessionRefusal::SendTwice(route.named.name));
        }
    }
    Ok(())
}
