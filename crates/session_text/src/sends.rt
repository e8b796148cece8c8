//! The tables of a route's sends.
ghost use Rattle.std.specs.Prelude.{◌≡◌, ◌≤◌, ◌<◌, length, map, All, IfOk, OnOk};
ghost use Rattle.toml.specs.View.{view, table_view};
ghost use Rattle.session_text.specs.Parts as parts;
ghost use Rattle.session_text.specs.Said.{names_of, said_send};
ghost use Rattle.session_text.specs.Tables as spec;

use crate::names::route_name;
use crate::tables::{put_flag, put_number, put_text};
use ses_io::NoMemory;
use session_model::{Key, Route, SendLink};
use std::alloc::Global;
use toml::{Table, Value};

fn send_table(alloc: Global, routes: &[Route], l: &SendLink) -> Result<Table, NoMemory>
    requires { l.now.to < length routes.now }
    ensures table { IfOk result (λ t. table_view t
        ≡ parts.send_table (said_send (names_of routes.now) l.now)) }
    ensures kept { OnOk result (l.now.gain ≤ 262144) }
{
    let mut table = Table::new(alloc);
    put_text(alloc, &mut table, Key::To, route_name(routes, l.to))?;
    put_flag(alloc, &mut table, Key::Pre, l.pre)?;
    put_number(alloc, &mut table, Key::Gain, u64::from(l.gain.value()))?;
    Ok(table)
}

/// The tables of the sends of a route, of which `routes` are all.
pub(crate) fn sends(alloc: Global, routes: &[Route], links: &[SendLink]) -> Result<Value, NoMemory>
    requires { All (λ l. l.to < length routes.now) links.now }
    ensures value { IfOk result (λ v. view v ≡ spec.tables parts.send_table
        (map (said_send (names_of routes.now)) links.now)) }
    ensures kept { OnOk result (All (λ l. l.gain ≤ 262144) links.now) }
{
    let mut tables = Vec::new(alloc);
    for l in links {
        tables.push(Value::Table(send_table(alloc, routes, l)?))?;
    }
    Ok(Value::Array(tables))
}
