//! Names in the place of places.
ghost use Rattle.std.specs.Prelude.{◌≡◌, ◌<◌, length, map, IfSome};
ghost use Rattle.session_text.specs.Said as spec;

use session_model::{Route, SourceDecl};

/// The name of the source at a place, from 0.
pub(crate) fn source_name(sources: &[SourceDecl], place: u32) -> &str
    requires { place < length sources.now }
    ensures { result.now ≡ spec.name_at (map (λ d. d.name) sources.now) place }
{
    sources[place as usize].name.as_str()
}

/// The name of the route at a place, from 0.
pub(crate) fn route_name(routes: &[Route], place: u32) -> &str
    requires { place < length routes.now }
    ensures { result.now ≡ spec.name_at (spec.names_of routes.now) place }
{
    routes[place as usize].name.as_str()
}

/// The name of the route that an output leads to; the master's leads nowhere, and no text says it.
pub(crate) fn out_name(routes: &[Route], target: Option<u32>) -> &str
    requires { IfSome target (λ place. place < length routes.now) }
    ensures { result.now ≡ spec.out_name (spec.names_of routes.now) target }
{
    match target {
        Some(place) => route_name(routes, place),
        None => "master",
    }
}
