//! The places that names name, each counted from 0.
ghost use Rattle.std.specs.Prelude.{◌≡◌, ◌<◌, length, IfOk};
ghost use Rattle.session_model.specs.Formed.{IsFormed};
ghost use Rattle.engine_model.specs.Commands.{route_at, is_track, is_master, track_at, bus_at, sender_at, source_at};
ghost use Rattle.edit_resolve.specs.Resolves.{Tells};

use crate::reason::Refusal;
use crate::rules::refused_if;
use crate::scans::{route_named, source_named};
use ses_units::Name;
use session_model::Session;

// The tracks' routes stand first.
fn is_track(s: &Session, route: u32) -> bool
    ensures { result ≡ is_track s.now route }
{
    (route as usize) < s.tracks.len()
}

// The master stands last.
fn is_master(s: &Session, route: u32) -> bool
    requires { route < length s.now.routes.items }
    ensures { result ≡ is_master s.now route }
{
    route as usize + 1 >= s.routes.len()
}

/// The route of a name.
pub(crate) fn route_at(s: &Session, name: &Name) -> Result<u32, Refusal>
    requires { IsFormed s.now }
    ensures place { Tells (λ r. r) (route_at s.now name.now) result }
    ensures there { IfOk result (λ r. r < length s.now.routes.items) }
{
    match route_named(s.routes.as_slice(), name) {
        Some(place) => Ok(place as u32),
        None => Err(Refusal::NoRoute(*name)),
    }
}

/// The track of a name.
pub(crate) fn track_at(s: &Session, name: &Name) -> Result<u32, Refusal>
    requires { IsFormed s.now }
    ensures place { Tells (λ t. t) (track_at s.now name.now) result }
    ensures there { IfOk result (λ t. t < length s.now.tracks.items) }
{
    let route = route_at(s, name)?;
    refused_if(!is_track(s, route), Refusal::NotTrack(*name))?;
    Ok(route)
}

/// The bus of a name, or the master.
pub(crate) fn bus_at(s: &Session, name: &Name) -> Result<u32, Refusal>
    requires { IsFormed s.now }
    ensures place { Tells (λ r. r) (bus_at s.now name.now) result }
    ensures there { IfOk result (λ r. r < length s.now.routes.items) }
{
    let route = route_at(s, name)?;
    refused_if(is_track(s, route), Refusal::NotBus(*name))?;
    Ok(route)
}

/// The route of a name, which isn't the master.
pub(crate) fn sender_at(s: &Session, name: &Name) -> Result<u32, Refusal>
    requires { IsFormed s.now }
    ensures place { Tells (λ r. r) (sender_at s.now name.now) result }
    ensures there { IfOk result (λ r. r < length s.now.routes.items) }
{
    let route = route_at(s, name)?;
    refused_if(is_master(s, route), Refusal::OnMaster)?;
    Ok(route)
}

/// The source of a name.
pub(crate) fn source_at(s: &Session, name: &Name) -> Result<u32, Refusal>
    requires { IsFormed s.now }
    ensures place { Tells (λ d. d) (source_at s.now name.now) result }
    ensures there { IfOk result (λ d. d < length s.now.sources.items) }
{
    match source_named(s.sources.as_slice(), name) {
        Some(place) => Ok(place as u32),
        None => Err(Refusal::NoSource(*name)),
    }
}
