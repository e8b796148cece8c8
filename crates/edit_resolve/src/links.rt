//! Where a route leads: its output and its sends.
ghost use Rattle.std.specs.Prelude.{◌≡◌, None};
ghost use Rattle.session_model.specs.Formed.{IsFormed};
ghost use Rattle.edit_resolve.specs.Kinds.{kind_of, OfLink};
ghost use Rattle.edit_resolve.specs.Resolves.{Resolves};

use crate::names::{bus_at, route_at, sender_at};
use crate::reason::{Bound, Refusal};
use crate::rules::{gain_of, refused_if};
use crate::standing::{closes, has_send, narrows, other_sends};
use ses_units::Name;
use ses_units::limits::SENDS;
use session_change::Change;
use session_model::{Edit, SendLink, Session};

fn connect(s: &Session, route: &Name, target: &Name) -> Result<Change, Refusal>
    requires { IsFormed s.now }
    ensures { Resolves s.now None (Edit.Connect route.now target.now) result }
{
    let r = sender_at(s, route)?;
    let to = bus_at(s, target)?;
    refused_if(narrows(s, r, to), Refusal::Channels(*route))?;
    refused_if(closes(s, r, to), Refusal::Cycle(*route))?;
    Ok(Change::Leads { route: r, to })
}

fn send(s: &Session, route: &Name, target: &Name, pre: bool, gain: u64) -> Result<Change, Refusal>
    requires { IsFormed s.now }
    ensures { Resolves s.now None (Edit.Send route.now target.now pre gain) result }
{
    let r = sender_at(s, route)?;
    let to = bus_at(s, target)?;
    let gain = gain_of(gain)?;
    refused_if(narrows(s, r, to), Refusal::Channels(*route))?;
    refused_if(closes(s, r, to), Refusal::Cycle(*route))?;
    refused_if(
        other_sends(s, r, to) >= SENDS as usize,
        Refusal::Limit(Bound::Sends),
    )?;
    let link = SendLink { to, pre, gain };
    Ok(Change::SendSet { route: r, link })
}

fn unsend(s: &Session, route: &Name, target: &Name) -> Result<Change, Refusal>
    requires { IsFormed s.now }
    ensures { Resolves s.now None (Edit.Unsend route.now target.now) result }
{
    let r = sender_at(s, route)?;
    let to = route_at(s, target)?;
    refused_if(!has_send(s, r, to), Refusal::NoSend(*target))?;
    Ok(Change::SendUnset { route: r, to })
}

/// What an edit of a link changes, or the first rule that it breaks.
/// It asks of no loop.
pub(crate) fn link_change_of(s: &Session, edit: &Edit) -> Result<Change, Refusal>
    requires formed { IsFormed s.now }
    requires kind { kind_of edit.now ≡ OfLink }
    ensures { Resolves s.now None edit.now result }
{
    match edit {
        Edit::Connect { route, target } => connect(s, route, target),
        Edit::Send {
            route,
            target,
            pre,
            gain,
        } => send(s, route, target, *pre, *gain),
        Edit::Unsend { route, target } => unsend(s, route, target),
        _ => unreachable!(),
    }
}
