//! The tables of the tracks and of the busses.
ghost use Rattle.std.specs.Prelude.{◌≡◌, ◌≤◌, length, map, take, All, IfOk, OnOk};
ghost use Rattle.std.specs.List.{zip};
ghost use Rattle.toml.specs.View.{view};
ghost use Rattle.session_model.specs.Playlist.{IsPlaylist};
ghost use Rattle.session_text.specs.Kept.{IsKeptRoute};
ghost use Rattle.session_text.specs.Parts as parts;
ghost use Rattle.session_text.specs.Said.{names_of, said_track, said_route};
ghost use Rattle.session_text.specs.Tables as spec;
ghost use Rattle.session_text.specs.Within.{LeadsWithin, ShowsWithin};

use crate::routes::bus_table;
use crate::tracks::track_table;
use ses_io::NoMemory;
use session_model::{Route, SourceDecl, Track};
use std::alloc::Global;
use toml::Value;

/// The tables of the tracks, whose routes are the first of all the `routes`.
pub(crate) fn tracks(
    alloc: Global,
    sources: &[SourceDecl],
    routes: &[Route],
    tracks: &[Track],
) -> Result<Value, NoMemory>
    requires few { length tracks.now ≤ length routes.now }
    requires routes { All (LeadsWithin (length routes.now)) routes.now }
    requires tracks { All (ShowsWithin (length sources.now)) tracks.now }
    ensures value { IfOk result (λ v. view v ≡ spec.tables parts.track_table
        (map (said_track (map (λ d. d.name) sources.now) (names_of routes.now))
        (zip (take (length tracks.now) routes.now) tracks.now))) }
    ensures routes { OnOk result (All IsKeptRoute (take (length tracks.now) routes.now)) }
    ensures lists { OnOk result (All (λ k. IsPlaylist k.list) tracks.now) }
{
    let mut tables = Vec::new(alloc);
    for (i, k) in tracks.iter().enumerate() {
        let table = track_table(alloc, sources, routes, &routes[i], k)?;
        tables.push(Value::Table(table))?;
    }
    Ok(Value::Array(tables))
}

/// The tables of the busses, which stand among all the `routes`.
pub(crate) fn busses(alloc: Global, routes: &[Route], some: &[Route]) -> Result<Value, NoMemory>
    requires { All (LeadsWithin (length routes.now)) some.now }
    ensures value { IfOk result (λ v. view v ≡ spec.tables parts.bus_table
        (map (said_route (names_of routes.now)) some.now)) }
    ensures kept { OnOk result (All IsKeptRoute some.now) }
{
    let mut tables = Vec::new(alloc);
    for q in some {
        tables.push(Value::Table(bus_table(alloc, routes, q)?))?;
    }
    Ok(Value::Array(tables))
}
