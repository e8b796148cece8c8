//! What is switched: which tracks are armed and soloed, and which routes are muted.
ghost use Rattle.std.specs.Prelude.{◌≡◌, ◌<◌, length};
ghost use Rattle.engine_model.specs.Changes.{Armed, Soloed, Muted, made};

use session_model::Session;

/// Arms a track, or not.
pub(crate) fn arm(s: &mut Session, track: u32, on: bool)
    requires { track < length s.old.tracks.items }
    ensures { s.new ≡ made s.old (Armed track on) }
{
    s.tracks.as_mut_slice()[track as usize].armed = on;
}

/// Solos a track, or not.
pub(crate) fn solo(s: &mut Session, track: u32, on: bool)
    requires { track < length s.old.tracks.items }
    ensures { s.new ≡ made s.old (Soloed track on) }
{
    s.tracks.as_mut_slice()[track as usize].solo = on;
}

/// Mutes a route, or not.
pub(crate) fn mute(s: &mut Session, route: u32, on: bool)
    requires { route < length s.old.routes.items }
    ensures { s.new ≡ made s.old (Muted route on) }
{
    s.routes.as_mut_slice()[route as usize].muted = on;
}
