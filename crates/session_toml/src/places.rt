//! Names of routes and sources, and the places that they stand for.
ghost use Rattle.std.specs.Prelude.{◌≡◌, ◌<◌, ◌≤◌, length, position, bytes_eq, IfOk, IfSome};
ghost use Rattle.session_toml.specs.Built as spec;

use ses_units::Name;
use session_model::SourceDecl;
use session_walk::RouteText;
use std::alloc::{AllocError, Global};

fn position_of(names: &[Name], name: Name) -> Option<usize>
    ensures place { result ≡ position (λ n. bytes_eq n name) names.now }
    ensures bound { IfSome result (λ i. i < length names.now) }
{
    names.iter().position(|n| *n == name)
}

/// The place of a name, and the one after the last where it isn't there.
pub(crate) fn place_of(names: &[Name], name: Name) -> usize
    ensures place { result ≡ spec.place_of names.now name }
    ensures bound { result ≤ length names.now }
{
    position_of(names, name).unwrap_or(names.len())
}

pub(crate) fn route_names(alloc: Global, routes: &[RouteText]) -> Result<Vec<Name>, AllocError>
    ensures { IfOk result (λ v. v.items ≡ spec.route_names routes.now) }
{
    routes.iter().map(|q| q.named.name).collect(alloc)
}

pub(crate) fn source_names(alloc: Global, sources: &[SourceDecl]) -> Result<Vec<Name>, AllocError>
    ensures { IfOk result (λ v. v.items ≡ spec.source_names sources.now) }
{
    sources.iter().map(|d| d.name).collect(alloc)
}
