//! The gains of a route, and which of them is heard.
ghost use Rattle.std.specs.Prelude.{◌≡◌, ◌<◌, length};
ghost use Rattle.engine_model.specs.Changes.{Faded, Panned, InMode, made};

use ses_units::{Gain, Mode};
use session_model::Session;

/// Sets the fader of a route.
pub(crate) fn fade(s: &mut Session, route: u32, gain: Gain)
    requires { route < length s.old.routes.items }
    ensures { s.new ≡ made s.old (Faded route gain) }
{
    s.routes.as_mut_slice()[route as usize].fader = gain;
}

/// Sets the gains of a route into the first and the second of two channels.
pub(crate) fn pan(s: &mut Session, route: u32, left: Gain, right: Gain)
    requires { route < length s.old.routes.items }
    ensures { s.new ≡ made s.old (Panned route left right) }
{
    let q = &mut s.routes.as_mut_slice()[route as usize];
    q.left = left;
    q.right = right;
}

/// Has the fader of a route heard, or its lane.
pub(crate) fn set_mode(s: &mut Session, route: u32, mode: Mode)
    requires { route < length s.old.routes.items }
    ensures { s.new ≡ made s.old (InMode route mode) }
{
    s.routes.as_mut_slice()[route as usize].mode = mode;
}
