//! Each route that an output or a send leads to is there.
ghost use Rattle.std.specs.Prelude.{◌≡◌, not, find, option_map};
ghost use Rattle.session_toml.specs.Rules as spec;

use super::lookups::has_route;
use ses_units::Name;
use session_model::SessionRefusal;
use session_walk::{RouteText, SendText};

// The first name that a send leads to and that isn't there.
fn lost_send(routes: &[RouteText], sends: &[SendText]) -> Option<Name>
    ensures { result ≡ option_map (λ l. l.to)
        (find (λ l. not (spec.has_route routes.now l.to)) sends.now) }
{
    let send = sends.iter().find(|send| !has_route(routes, send.to))?;
    Some(send.to)
}

// The first name that the route leads to and that isn't there: its output, then its sends.
fn lost_route(routes: &[RouteText], route: &RouteText) -> Option<Name>
    ensures { result ≡ spec.first_target (λ name. not (spec.has_route routes.now name)) route.now }
{
    if !has_route(routes, route.strip.out) {
        return Some(route.strip.out);
    }
    lost_send(routes, route.sends.as_slice())
}

/// Refuses the first name that a route leads to and that isn't there.
pub(crate) fn routes_there(routes: &[RouteText]) -> Result<(), SessionRefusal>
    ensures { result ≡ spec.routes_there routes.now }
{
    for route in routes {
        if let Some(name) = lost_route(routes, route) {
            return Err(SessionRefusal::NoRoute(name));
        }
    }
    Ok(())
}
