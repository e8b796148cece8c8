//! The rules between the parts of a session's text, in their one order: a file each.
ghost use Rattle.std.specs.Prelude.{◌≡◌};
ghost use Rattle.session_toml.specs.Rules as spec;

mod alike;
mod busses_fed;
mod lookups;
mod regions_once;
mod routes_once;
mod routes_there;
mod sends_once;
mod sources_fit;
mod sources_once;
mod sources_there;
mod targets_fit;

use busses_fed::busses_fed;
use regions_once::regions_once;
use routes_once::routes_once;
use routes_there::routes_there;
use sends_once::sends_once;
use session_model::{SessionRefusal, SourceDecl};
use session_walk::{RouteText, TrackOwn};
use sources_fit::sources_fit;
use sources_once::sources_once;
use sources_there::sources_there;
use targets_fit::targets_fit;

/// Refuses a text of which one part doesn't fit another; the master has so many channels.
#[tactic(auto, unfolding(crate::specs::Rules::rules))]
pub(crate) fn rules(
    routes: &[RouteText],
    tracks: &[TrackOwn],
    sources: &[SourceDecl],
    master: u16,
) -> Result<(), SessionRefusal>
    ensures { result ≡ spec.rules routes.now tracks.now sources.now master }
{
    routes_once(routes)?;
    sources_once(sources)?;
    sends_once(routes)?;
    regions_once(tracks)?;
    sources_there(sources, tracks)?;
    routes_there(routes)?;
    busses_fed(routes, tracks)?;
    sources_fit(sources, tracks)?;
    targets_fit(routes, master)
}
