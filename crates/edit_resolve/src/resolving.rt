//! What an edit changes of a session: each kind of edit has its own rules.
ghost use Rattle.session_model.specs.Valid.{IsValid};
ghost use Rattle.edit_resolve.specs.Resolves.{Resolves};

use crate::blends::blend_change_of;
use crate::links::link_change_of;
use crate::reason::Refusal;
use crate::regions::region_change_of;
use crate::routes::route_change_of;
use crate::transport::transport_change_of;
use locate_loop::Wrap;
use session_change::Change;
use session_model::{Edit, Session};

/// What an edit changes of a session in which this loop is in force, or the first rule that it
/// breaks. It takes no memory.
pub fn change_of(s: &Session, wrap: Option<Wrap>, edit: &Edit) -> Result<Change, Refusal>
    requires valid { IsValid s.now }
    ensures { Resolves s.now wrap edit.now result }
{
    match edit {
        Edit::Roll
        | Edit::Stop
        | Edit::Quit
        | Edit::Recording { .. }
        | Edit::Locate { .. }
        | Edit::Loop { .. }
        | Edit::LoopOff => transport_change_of(wrap, edit),
        Edit::Arm { .. }
        | Edit::Solo { .. }
        | Edit::Mute { .. }
        | Edit::Gain { .. }
        | Edit::Pan { .. }
        | Edit::Mode { .. }
        | Edit::Point { .. }
        | Edit::Unpoint { .. } => route_change_of(s, edit),
        Edit::Connect { .. } | Edit::Send { .. } | Edit::Unsend { .. } => link_change_of(s, edit),
        Edit::Add { .. } | Edit::Remove { .. } | Edit::Move { .. } | Edit::Trim { .. } => {
            region_change_of(s, edit)
        }
        Edit::Layer { .. }
        | Edit::Opaque { .. }
        | Edit::RegionGain { .. }
        | Edit::Fade { .. }
        | Edit::Shape { .. } => blend_change_of(s, edit),
    }
}
