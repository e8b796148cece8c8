//! No two routes have one name.
ghost use Rattle.std.specs.Prelude.{◌≡◌};
ghost use Rattle.session_toml.specs.Rules as spec;

use super::alike::first_twice;
use session_model::SessionRefusal;
use session_walk::RouteText;

/// Refuses the first route whose name stood before.
pub(crate) fn routes_once(routes: &[RouteText]) -> Result<(), SessionRefusal>
    ensures { result ≡ spec.routes_once routes.now }
{
    match first_twice(routes) {
        Some(route) => Err(SessionRefusal::Twice(route.named.name)),
        None => Ok(()),
    }
}
