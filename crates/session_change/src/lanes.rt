//! The points of a route's lane.
ghost use Rattle.std.specs.Prelude.{◌≡◌, ◌<◌, ◌^◌, true, length};
ghost use Rattle.ses_units.specs.Point.{point_of};
ghost use Rattle.engine_model.specs.Changes.{PointSet, PointUnset, made};
ghost use Rattle.engine_model.specs.Commands.{other_points, has_point};

use ses_units::Point;
use session_model::Session;

/// Puts a point into the lane of a route, over the one at its place, if one is there.
pub(crate) fn set_point(s: &mut Session, route: u32, p: Point)
    requires route { route < length s.old.routes.items }
    requires near { p.at < 2 ^ 40 }
    requires room { other_points s.old route p.at < 1024 }
    ensures { s.new ≡ made s.old (PointSet route (point_of p)) }
{
    let q = &mut s.routes.as_mut_slice()[route as usize];
    q.lane.set(p).unwrap();
}

/// Takes the point at a place, in frames, out of the lane of a route.
pub(crate) fn unset_point(s: &mut Session, route: u32, at: u64)
    requires route { route < length s.old.routes.items }
    requires stands { has_point s.old route at ≡ true }
    ensures { s.new ≡ made s.old (PointUnset route at) }
{
    let q = &mut s.routes.as_mut_slice()[route as usize];
    q.lane.unset(at).unwrap();
}
