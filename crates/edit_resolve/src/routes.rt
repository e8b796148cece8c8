//! What is set on one track or route: its switches, its gains and its lane.
ghost use Rattle.std.specs.Prelude.{◌≡◌, None};
ghost use Rattle.session_model.specs.Formed.{IsFormed};
ghost use Rattle.edit_resolve.specs.Kinds.{kind_of, OfRoute};
ghost use Rattle.edit_resolve.specs.Resolves.{Resolves};

use crate::material::has_input;
use crate::names::{route_at, sender_at, track_at};
use crate::reason::{Bound, Refusal};
use crate::rules::{gain_of, near, refused_if};
use crate::standing::{has_point, other_points};
use ses_units::limits::POINTS;
use ses_units::{Mode, Name, Point};
use session_change::Change;
use session_model::{Edit, Session};

fn arm(s: &Session, track: &Name, on: bool) -> Result<Change, Refusal>
    requires { IsFormed s.now }
    ensures { Resolves s.now None (Edit.Arm track.now on) result }
{
    let t = track_at(s, track)?;
    refused_if(on && !has_input(s, t), Refusal::NoInput(*track))?;
    Ok(Change::Armed { track: t, on })
}

fn solo(s: &Session, track: &Name, on: bool) -> Result<Change, Refusal>
    requires { IsFormed s.now }
    ensures { Resolves s.now None (Edit.Solo track.now on) result }
{
    let t = track_at(s, track)?;
    Ok(Change::Soloed { track: t, on })
}

fn mute(s: &Session, route: &Name, on: bool) -> Result<Change, Refusal>
    requires { IsFormed s.now }
    ensures { Resolves s.now None (Edit.Mute route.now on) result }
{
    let r = route_at(s, route)?;
    Ok(Change::Muted { route: r, on })
}

fn set_gain(s: &Session, route: &Name, gain: u64) -> Result<Change, Refusal>
    requires { IsFormed s.now }
    ensures { Resolves s.now None (Edit.Gain route.now gain) result }
{
    let r = route_at(s, route)?;
    let gain = gain_of(gain)?;
    Ok(Change::Faded { route: r, gain })
}

fn pan(s: &Session, route: &Name, left: u64, right: u64) -> Result<Change, Refusal>
    requires { IsFormed s.now }
    ensures { Resolves s.now None (Edit.Pan route.now left right) result }
{
    let r = sender_at(s, route)?;
    let left = gain_of(left)?;
    let right = gain_of(right)?;
    Ok(Change::Panned {
        route: r,
        left,
        right,
    })
}

fn set_mode(s: &Session, route: &Name, mode: Mode) -> Result<Change, Refusal>
    requires { IsFormed s.now }
    ensures { Resolves s.now None (Edit.Mode route.now mode) result }
{
    let r = route_at(s, route)?;
    Ok(Change::InMode { route: r, mode })
}

fn point(s: &Session, route: &Name, place: u64, gain: u64) -> Result<Change, Refusal>
    requires { IsFormed s.now }
    ensures { Resolves s.now None (Edit.Point route.now place gain) result }
{
    let r = route_at(s, route)?;
    near(place)?;
    let gain = gain_of(gain)?;
    refused_if(
        other_points(s, r, place) >= POINTS,
        Refusal::Limit(Bound::Points),
    )?;
    let point = Point { at: place, gain };
    Ok(Change::PointSet { route: r, point })
}

fn unpoint(s: &Session, route: &Name, place: u64) -> Result<Change, Refusal>
    requires { IsFormed s.now }
    ensures { Resolves s.now None (Edit.Unpoint route.now place) result }
{
    let r = route_at(s, route)?;
    refused_if(!has_point(s, r, place), Refusal::NoPoint(place))?;
    Ok(Change::PointUnset {
        route: r,
        at: place,
    })
}

/// What an edit of one track or route changes, or the first rule that it breaks.
/// It asks of no loop.
pub(crate) fn route_change_of(s: &Session, edit: &Edit) -> Result<Change, Refusal>
    requires formed { IsFormed s.now }
    requires kind { kind_of edit.now ≡ OfRoute }
    ensures { Resolves s.now None edit.now result }
{
    match edit {
        Edit::Arm { track, on } => arm(s, track, *on),
        Edit::Solo { track, on } => solo(s, track, *on),
        Edit::Mute { route, on } => mute(s, route, *on),
        Edit::Gain { route, gain } => set_gain(s, route, *gain),
        Edit::Pan { route, left, right } => pan(s, route, *left, *right),
        Edit::Mode { route, mode } => set_mode(s, route, *mode),
        Edit::Point { route, at, gain } => point(s, route, *at, *gain),
        Edit::Unpoint { route, at } => unpoint(s, route, *at),
        _ => unreachable!(),
    }
}
