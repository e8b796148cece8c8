//! The edits of the transport, which leave every session as it is.
ghost use Rattle.std.specs.Prelude.{◌≡◌, None};
ghost use Rattle.session_model.specs.declared.session.Session.{Session};
ghost use Rattle.edit_resolve.specs.Kinds.{kind_of, OfTransport};
ghost use Rattle.edit_resolve.specs.Resolves.{Resolves};

use crate::reason::Refusal;
use crate::rules::{near, refused_if};
use locate_loop::Wrap;
use session_change::Change;
use session_model::Edit;

fn locate(to: u64) -> Result<Change, Refusal>
    ensures { (s : Session) → Resolves s None (Edit.Locate to) result }
{
    near(to)?;
    Ok(Change::TransportOnly)
}

fn loop_round(from: u64, to: u64) -> Result<Change, Refusal>
    ensures { (s : Session) → Resolves s None (Edit.Loop from to) result }
{
    near(from)?;
    near(to)?;
    refused_if(to <= from, Refusal::LoopEmpty)?;
    Ok(Change::TransportOnly)
}

fn loop_off(wrap: Option<Wrap>) -> Result<Change, Refusal>
    ensures { (s : Session) → Resolves s wrap Edit.LoopOff result }
{
    refused_if(wrap.is_none(), Refusal::NoLoop)?;
    Ok(Change::TransportOnly)
}

/// What an edit of the transport changes, or the first rule that it breaks.
pub(crate) fn transport_change_of(wrap: Option<Wrap>, edit: &Edit) -> Result<Change, Refusal>
    requires { kind_of edit.now ≡ OfTransport }
    ensures { (s : Session) → Resolves s wrap edit.now result }
{
    match edit {
        Edit::Roll | Edit::Stop | Edit::Quit | Edit::Recording { .. } => Ok(Change::TransportOnly),
        Edit::Locate { to } => locate(*to),
        Edit::Loop { from, to } => loop_round(*from, *to),
        Edit::LoopOff => loop_off(wrap),
        _ => unreachable!(),
    }
}
