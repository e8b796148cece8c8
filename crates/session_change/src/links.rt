//! Where a route leads.
ghost use Rattle.std.specs.Prelude.{◌≡◌, ◌<◌, length};
ghost use Rattle.session_model.specs.Valid.{IsValid};
ghost use Rattle.engine_model.specs.Changes.{Leads, SendSet, SendUnset, made};
ghost use Rattle.engine_model.specs.Commands.{other_sends};

use crate::sends::{put_send, take_send};
use session_model::{SendLink, Session};

/// Leads the output of a route to another.
pub(crate) fn lead(s: &mut Session, route: u32, to: u32)
    requires { route < length s.old.routes.items }
    ensures { s.new ≡ made s.old (Leads route to) }
{
    s.routes.as_mut_slice()[route as usize].target = Some(to);
}

/// Gives a route a send, in place of the one to the same route, if it has one.
pub(crate) fn set_send(s: &mut Session, route: u32, link: SendLink)
    requires valid { IsValid s.old }
    requires route { route < length s.old.routes.items }
    requires room { other_sends s.old route link.to < 8 }
    ensures { s.new ≡ made s.old (SendSet route link) }
{
    put_send(&mut s.routes.as_mut_slice()[route as usize].sends, link);
}

/// Takes from a route what it sends to another.
pub(crate) fn unset_send(s: &mut Session, route: u32, to: u32)
    requires { route < length s.old.routes.items }
    ensures { s.new ≡ made s.old (SendUnset route to) }
{
    take_send(&mut s.routes.as_mut_slice()[route as usize].sends, to);
}
