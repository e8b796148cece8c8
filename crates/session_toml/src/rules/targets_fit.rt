//! A route of two channels feeds none of one.
ghost use Rattle.std.specs.Prelude.{◌≡◌, ◌==◌, find, option_map};
ghost use Rattle.session_toml.specs.Rules as spec;

use super::lookups::route_channels;
use ses_units::Name;
use session_model::SessionRefusal;
use session_walk::{RouteText, SendText};

// The first route of one channel that a send leads to.
fn narrow_send(routes: &[RouteText], master: u16, sends: &[SendText]) -> Option<Name>
    ensures { result ≡ option_map (λ l. l.to)
        (find (λ l. spec.route_channels routes.now master l.to == 1) sends.now) }
{
    let mut sends = sends.iter();
    let send = sends.find(|send| route_channels(routes, master, send.to) == 1)?;
    Some(send.to)
}

// The first route of one channel that the route leads to, by its output, then its sends.
fn narrow_target(routes: &[RouteText], master: u16, route: &RouteText) -> Option<Name>
    ensures { result ≡ spec.first_target (λ name. spec.route_channels routes.now master name == 1)
        route.now }
{
    if route_channels(routes, master, route.strip.out) == 1 {
        return Some(route.strip.out);
    }
    narrow_send(routes, master, route.sends.as_slice())
}

// Whether the route has two channels and leads to one of one.
fn narrows(routes: &[RouteText], master: u16, route: &RouteText) -> bool
    ensures { result ≡ spec.narrows routes.now master route.now }
{
    route.named.channels == 2 && narrow_target(routes, master, route).is_some()
}

/// Refuses the first route of two channels that leads to one of one; the master has so many channels.
pub(crate) fn targets_fit(routes: &[RouteText], master: u16) -> Result<(), SessionRefusal>
    ensures { result ≡ spec.targets_fit routes.now master }
{
    for route in routes {
        if narrows(routes, master, route) {
            return Err(SessionRefusal::Channels(route.named.name));
        }
    }
    Ok(())
}
