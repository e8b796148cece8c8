//! Plain scans of the lists of a session.
ghost use Rattle.std.specs.Prelude.{◌≡◌, ◌<◌, ◌==◌, not, length, position, find, count_by, option_copied, IfSome};
ghost use Rattle.std.specs.List.{list_any};
ghost use Rattle.std.specs.Str.{bytes_eq};

use ses_units::{Name, Point};
use session_model::{Region, Route, SendLink, SourceDecl};

/// The place of the route of a name.
pub(crate) fn route_named(routes: &[Route], name: &Name) -> Option<usize>
    ensures place { result ≡ position (λ q. bytes_eq q.name name.now) routes.now }
    ensures there { IfSome result (λ place. place < length routes.now) }
{
    routes.iter().position(|q| q.name == *name)
}

/// The place of the source of a name.
pub(crate) fn source_named(sources: &[SourceDecl], name: &Name) -> Option<usize>
    ensures place { result ≡ position (λ d. bytes_eq d.name name.now) sources.now }
    ensures there { IfSome result (λ place. place < length sources.now) }
{
    sources.iter().position(|d| d.name == *name)
}

/// The region of an id.
pub(crate) fn region_of_id(regions: &[Region], id: u32) -> Option<&Region>
    ensures { option_copied result ≡ find (λ r. r.id == id) regions.now }
{
    regions.iter().find(|r| r.id == id)
}

/// How many points stand at other places.
pub(crate) fn points_elsewhere(points: &[Point], place: u64) -> usize
    ensures { result ≡ count_by (λ p. not (p.at == place)) points.now }
{
    points.iter().filter(|p| p.at != place).count()
}

/// Whether a point stands at a place.
pub(crate) fn has_point_at(points: &[Point], place: u64) -> bool
    ensures { result ≡ list_any (λ p. p.at == place) points.now }
{
    points.iter().any(|p| p.at == place)
}

/// How many sends lead elsewhere.
pub(crate) fn sends_elsewhere(sends: &[SendLink], to: u32) -> usize
    ensures { result ≡ count_by (λ l. not (l.to == to)) sends.now }
{
    sends.iter().filter(|l| l.to != to).count()
}

/// Whether a send leads to a route.
pub(crate) fn has_send_to(sends: &[SendLink], to: u32) -> bool
    ensures { result ≡ list_any (λ l. l.to == to) sends.now }
{
    sends.iter().any(|l| l.to == to)
}
