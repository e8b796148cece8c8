//! Sources, routes and tracks by their names.
ghost use Rattle.std.specs.Prelude.{◌≡◌, find, option_copied, bytes_eq, codes};
ghost use Rattle.std.specs.List.{list_any};
ghost use Rattle.session_toml.specs.Rules as spec;

use ses_units::Name;
use session_model::SourceDecl;
use session_walk::{RouteText, TrackOwn};

/// Whether it is the name of a track.
pub(crate) fn is_track(tracks: &[TrackOwn], name: Name) -> bool
    ensures { result ≡ spec.is_track tracks.now name }
{
    tracks.iter().any(|k| k.named.name == name)
}

fn source_of(sources: &[SourceDecl], name: Name) -> Option<&SourceDecl>
    ensures { option_copied result ≡ find (λ d. bytes_eq d.name name) sources.now }
{
    sources.iter().find(|d| d.name == name)
}

/// Whether there is a source of that name.
pub(crate) fn has_source(sources: &[SourceDecl], name: Name) -> bool
    ensures { result ≡ spec.has_source sources.now name }
{
    source_of(sources, name).is_some()
}

/// The channels of a source, 0 where it is not there.
pub(crate) fn source_channels(sources: &[SourceDecl], name: Name) -> u16
    ensures { result ≡ spec.source_channels sources.now name }
{
    match source_of(sources, name) {
        Some(source) => source.channels,
        None => 0,
    }
}

fn route_of(routes: &[RouteText], name: Name) -> Option<&RouteText>
    ensures { option_copied result ≡ find (λ q. bytes_eq q.named.name name) routes.now }
{
    routes.iter().find(|q| q.named.name == name)
}

fn is_master(name: &Name) -> bool
    ensures { result ≡ bytes_eq name.now (codes "master") }
{
    name.as_str() == "master"
}

fn has_bus(routes: &[RouteText], name: Name) -> bool
    ensures { result ≡ list_any (λ q. bytes_eq q.named.name name) routes.now }
{
    route_of(routes, name).is_some()
}

/// Whether there is a route of that name; the master is always there.
pub(crate) fn has_route(routes: &[RouteText], name: Name) -> bool
    ensures { result ≡ spec.has_route routes.now name }
{
    is_master(&name) || has_bus(routes, name)
}

/// The channels of a route, the master's where no other has the name.
pub(crate) fn route_channels(routes: &[RouteText], master: u16, name: Name) -> u16
    ensures { result ≡ spec.route_channels routes.now master name }
{
    match route_of(routes, name) {
        Some(route) => route.named.channels,
        None => master,
    }
}
