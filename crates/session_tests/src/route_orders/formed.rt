//! A test of a formed session with neither sources nor tracks, whose routes have one channel and at most one send,
//! so that a table of graphs can be tried.
ghost use Rattle.std.specs.Prelude.{◌≡◌, ◌&&◌, ◌+◌, ◌≤◌, nat_eq, nat_le, length, map, IsTrue, IfSome, not};
ghost use Rattle.std.specs.List.{list_all};
ghost use Rattle.std.specs.Str.{bytes_eq};
ghost use Rattle.session_model.specs.Formed.{kind_at, IsFormed};
ghost use Rattle.session_model.specs.Lists.{are_apart, each_from};
ghost use Rattle.session_model.specs.Tests as spec;

use session_model::{Route, RouteKind, Session, form_is_tested};

fn may_feed(s: &Session, q: &Route, to: u32) -> bool
    ensures { result ≡ spec.may_feed s.now q.now to }
{
    s.tracks.len() <= to as usize
        && (s.routes.as_slice().get(to as usize)).is_some_and(|next| q.channels <= next.channels)
}

fn is_master(q: &Route) -> bool
    ensures { result ≡ spec.is_master q.now }
{
    q.name.as_str() == "master"
        && q.left.value() == 65_536
        && q.right.value() == 65_536
        && q.target.is_none()
        && q.sends.len() == 0
}

fn leads_on(s: &Session, q: &Route) -> bool
    ensures { result ≡ spec.leads_on s.now q.now q.now.kind }
{
    match q.kind {
        RouteKind::Track(_) => q.target.is_some_and(|to| may_feed(s, q, to)),
        RouteKind::Bus => q.target.is_some_and(|to| may_feed(s, q, to)),
        RouteKind::Master => is_master(q),
    }
}

fn sends_formed(s: &Session, q: &Route) -> bool
    ensures { IsTrue result → IsTrue (nat_le (length q.now.sends.items) 8
        && list_all (λ l. spec.may_feed s.now q.now l.to) q.now.sends.items
        && are_apart nat_eq (map (λ l. l.to) q.now.sends.items)) }
{
    match q.sends.as_slice() {
        [] => true,
        [only] => may_feed(s, q, only.to),
        [_, _, ..] => false,
    }
}

// Without tracks the last route is the master, and the others are busses.
fn is_kind(s: &Session, place: usize, q: &Route) -> bool
    requires none { length s.now.tracks.items ≡ 0 }
    requires small { place ≤ 64 }
    ensures { result ≡ spec.same_kind q.now.kind
        (kind_at (length s.now.tracks.items) (length s.now.routes.items) place) }
{
    match q.kind {
        RouteKind::Track(_) => false,
        RouteKind::Bus => place + 1 != s.routes.len(),
        RouteKind::Master => place + 1 == s.routes.len(),
    }
}

fn is_formed_route(s: &Session, place: usize, q: &Route) -> bool
    requires none { length s.now.tracks.items ≡ 0 }
    requires small { place ≤ 64 }
    ensures { IsTrue result → IsTrue (spec.is_formed_route s.now place q.now) }
{
    if q.channels != 1 {
        return false;
    }
    if !is_kind(s, place, q) {
        return false;
    }
    if !leads_on(s, q) || q.sends.room() < 8 {
        return false;
    }
    sends_formed(s, q)
}

fn formed_from(s: &Session, place: usize, routes: &[Route]) -> bool
    requires none { length s.now.tracks.items ≡ 0 }
    requires small { place + length routes.now ≤ 64 }
    ensures { IsTrue result
        → IsTrue (each_from (spec.is_formed_route s.now) place routes.now) }
{
    match routes {
        [] => true,
        [q, rest @ ..] => is_formed_route(s, place, q) && formed_from(s, place + 1, rest),
    }
}

fn none_is(name: &str, routes: &[Route]) -> bool
    ensures { result ≡ list_all (λ q. not (bytes_eq name.now q.name)) routes.now }
{
    routes.iter().all(|q| name != q.name.as_str())
}

fn names_apart(routes: &[Route]) -> bool
    ensures { IsTrue result → IsTrue (are_apart bytes_eq (map (λ q. q.name) routes.now)) }
{
    match routes {
        [] => true,
        [first, rest @ ..] => none_is(first.name.as_str(), rest) && names_apart(rest),
    }
}

fn has_limits(s: &Session) -> bool
    ensures { IsTrue result → IsTrue (spec.has_limits s.now) }
{
    8000 <= s.rate
        && s.rate <= 192_000
        && 1 <= s.block
        && s.block <= 4096
        && 2 <= s.depth
        && s.depth <= 256
        && s.depth * s.block <= 65_536
        && s.tracks.len() == 0
        && 1 <= s.routes.len()
        && s.routes.len() <= 64
        && s.sources.len() <= 64
}

/// The session, where it is formed.
pub(crate) fn formed(s: Session) -> Option<Session>
    ensures { IfSome result IsFormed }
{
    if !has_limits(&s) || s.tracks.len() != 0 || s.sources.len() != 0 {
        return None;
    }
    if 64 < s.routes.len() || !names_apart(s.routes.as_slice()) {
        return None;
    }
    if formed_from(&s, 0, s.routes.as_slice()) {
        form_is_tested();
        return Some(s);
    }
    None
}
