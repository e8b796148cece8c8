//! The tables of routes: what a track, a bus and the master have in common.
ghost use Rattle.std.specs.Prelude.{◌≡◌, length, IfOk, OnOk};
ghost use Rattle.toml.specs.View.{table_view};
ghost use Rattle.session_text.specs.Kept.{IsKeptFader, IsKeptRoute};
ghost use Rattle.session_text.specs.Parts as parts;
ghost use Rattle.session_text.specs.Said.{names_of, said_level, said_automation, said_route, said_master};
ghost use Rattle.session_text.specs.Tables.{with_keys};
ghost use Rattle.session_text.specs.Within.{LeadsWithin};

use crate::lanes::pairs;
use crate::names::out_name;
use crate::sends::sends;
use crate::tables::{put, put_flag, put_number, put_text};
use crate::words::mode_word;
use ses_io::NoMemory;
use session_model::{Key, Route};
use std::alloc::Global;
use toml::Table;

// Puts what any route has: its fader, and how that moves.
fn put_fader(alloc: Global, table: &mut Table, q: &Route) -> Result<(), NoMemory>
    ensures table { OnOk result (table_view table.new
        ≡ with_keys (parts.fader_keys (said_level q.now) (said_automation q.now))
        (table_view table.old)) }
    ensures kept { OnOk result (IsKeptFader q.now) }
{
    put_number(alloc, table, Key::Gain, u64::from(q.fader.value()))?;
    put_flag(alloc, table, Key::Mute, q.muted)?;
    put_text(alloc, table, Key::Mode, mode_word(q.mode))?;
    put(alloc, table, Key::Lane, pairs(alloc, &q.lane)?)
}

/// The table of the master.
pub(crate) fn master_table(alloc: Global, q: &Route) -> Result<Table, NoMemory>
    ensures table { IfOk result (λ t. table_view t ≡ parts.master_table (said_master q.now)) }
    ensures kept { OnOk result (IsKeptFader q.now) }
{
    let mut table = Table::new(alloc);
    put_fader(alloc, &mut table, q)?;
    Ok(table)
}

/// The table of a bus, which a track's begins with. Of all the `routes` it is one.
pub(crate) fn bus_table(alloc: Global, routes: &[Route], q: &Route) -> Result<Table, NoMemory>
    requires { LeadsWithin (length routes.now) q.now }
    ensures table { IfOk result (λ t. table_view t
        ≡ parts.bus_table (said_route (names_of routes.now) q.now)) }
    ensures kept { OnOk result (IsKeptRoute q.now) }
{
    let mut table = Table::new(alloc);
    put_text(alloc, &mut table, Key::Name, q.name.as_str())?;
    put_number(alloc, &mut table, Key::Channels, u64::from(q.channels))?;
    put_text(alloc, &mut table, Key::Out, out_name(routes, q.target))?;
    put_number(alloc, &mut table, Key::Left, u64::from(q.left.value()))?;
    put_number(alloc, &mut table, Key::Right, u64::from(q.right.value()))?;
    put(
        alloc,
        &mut table,
        Key::Send,
        sends(alloc, routes, q.sends.as_slice())?,
    )?;
    put_fader(alloc, &mut table, q)?;
    Ok(table)
}
