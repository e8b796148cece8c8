//! A change is made of a session, in place.
ghost use Rattle.std.specs.Prelude.{◌≡◌};
ghost use Rattle.session_model.specs.Valid.{IsValid};
ghost use Rattle.engine_model.specs.Changes.{made};
ghost use Rattle.engine_model.specs.MayMake.{MayMake};
ghost use Rattle.session_change.specs.Change.{change_seen};

use crate::change::Change;
use crate::faders::{fade, pan, set_mode};
use crate::lanes::{set_point, unset_point};
use crate::links::{lead, set_send, unset_send};
use crate::regions::{put_region, take_region};
use crate::switches::{arm, mute, solo};
use session_model::Session;

/// Makes a change of a session, in place. It takes no memory.
pub fn make(s: &mut Session, change: &Change)
    requires valid { IsValid s.old }
    requires may { MayMake s.old (change_seen change.now) }
    ensures made { s.new ≡ made s.old (change_seen change.now) }
{
    match *change {
        Change::TransportOnly => {}
        Change::Armed { track, on } => arm(s, track, on),
        Change::Soloed { track, on } => solo(s, track, on),
        Change::Muted { route, on } => mute(s, route, on),
        Change::Faded { route, gain } => fade(s, route, gain),
        Change::Panned { route, left, right } => pan(s, route, left, right),
        Change::InMode { route, mode } => set_mode(s, route, mode),
        Change::PointSet { route, point } => set_point(s, route, point),
        Change::PointUnset { route, at } => unset_point(s, route, at),
        Change::Leads { route, to } => lead(s, route, to),
        Change::SendSet { route, link } => set_send(s, route, link),
        Change::SendUnset { route, to } => unset_send(s, route, to),
        Change::RegionPut { track, region } => put_region(s, track, region),
        Change::RegionTaken { track, id } => take_region(s, track, id),
    }
}
