//! The table of a track.
ghost use Rattle.std.specs.Prelude.{◌≡◌, length, map, IfOk, OnOk};
ghost use Rattle.toml.specs.View.{table_view};
ghost use Rattle.session_model.specs.Playlist.{IsPlaylist};
ghost use Rattle.session_text.specs.Kept.{IsKeptRoute};
ghost use Rattle.session_text.specs.Parts as parts;
ghost use Rattle.session_text.specs.Said.{names_of, said_track};
ghost use Rattle.session_text.specs.Tables.{with_keys};
ghost use Rattle.session_text.specs.Within.{LeadsWithin, ShowsWithin};

use crate::regions::regions;
use crate::routes::bus_table;
use crate::tables::{put, put_flag, put_number};
use ses_io::NoMemory;
use session_model::{Key, Route, SourceDecl, Track};
use std::alloc::Global;
use toml::Table;

// Puts the first of the input's channels, and nothing where no input is taken.
fn put_input(alloc: Global, table: &mut Table, input: Option<u16>) -> Result<(), NoMemory>
    ensures { OnOk result (table_view table.new
        ≡ with_keys (parts.input_keys input) (table_view table.old)) }
{
    match input {
        Some(first) => put_number(alloc, table, Key::Input, u64::from(first)),
        None => Ok(()),
    }
}

/// The table of a track, whose route is `q`.
pub(crate) fn track_table(
    alloc: Global,
    sources: &[SourceDecl],
    routes: &[Route],
    q: &Route,
    k: &Track,
) -> Result<Table, NoMemory>
    requires route { LeadsWithin (length routes.now) q.now }
    requires track { ShowsWithin (length sources.now) k.now }
    ensures table { IfOk result (λ t. table_view t ≡ parts.track_table
        (said_track (map (λ d. d.name) sources.now) (names_of routes.now) (q.now, k.now))) }
    ensures route { OnOk result (IsKeptRoute q.now) }
    ensures list { OnOk result (IsPlaylist k.now.list) }
{
    let mut table = bus_table(alloc, routes, q)?;
    put_flag(alloc, &mut table, Key::Solo, k.solo)?;
    put_flag(alloc, &mut table, Key::Arm, k.armed)?;
    put(
        alloc,
        &mut table,
        Key::Region,
        regions(alloc, sources, &k.list)?,
    )?;
    put_input(alloc, &mut table, k.input)?;
    Ok(table)
}
