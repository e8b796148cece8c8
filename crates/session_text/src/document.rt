//! The text of a whole session.
ghost use Rattle.std.specs.Prelude.{◌≡◌, ◌<◌, true, length, Ok, IfOk, OnOk};
ghost use Rattle.ses_units.specs.Name.{is_name};
ghost use Rattle.toml.specs.View.{table_view};
ghost use Rattle.session_model.specs.Formed.{IsFormed};
ghost use Rattle.session_model.specs.Valid.{IsValid};
ghost use Rattle.session_walk.specs.Text.{document};
ghost use Rattle.session_toml.specs.Session.{session};
ghost use Rattle.session_text.specs.Kept.{IsKept};
ghost use Rattle.session_text.specs.Parts as parts;
ghost use Rattle.session_text.specs.Said.{said_head};
ghost use Rattle.session_text.specs.Session as spec;

use crate::desk::{busses, tracks};
use crate::routes::master_table;
use crate::sources::sources;
use crate::tables::{put, put_number, put_text};
use crate::words::bits_number;
use ses_io::NoMemory;
use session_model::{Key, Session};
use std::alloc::Global;
use toml::{Table, Value};

fn head_table(alloc: Global, s: &Session) -> Result<Table, NoMemory>
    requires { 0 < length s.now.routes.items }
    ensures table { IfOk result (λ t. table_view t ≡ parts.head_table (said_head s.now)) }
    ensures takes { OnOk result (is_name s.now.takes ≡ true) }
{
    let routes = s.routes.as_slice();
    let master = &routes[routes.len() - 1];
    let mut table = Table::new(alloc);
    put_number(alloc, &mut table, Key::Version, 2)?;
    put_number(alloc, &mut table, Key::Rate, u64::from(s.rate))?;
    put_number(alloc, &mut table, Key::Bits, bits_number(s.bits))?;
    put_number(alloc, &mut table, Key::Channels, u64::from(master.channels))?;
    put_number(alloc, &mut table, Key::Block, u64::from(s.block))?;
    put_number(alloc, &mut table, Key::Depth, u64::from(s.depth))?;
    put_text(alloc, &mut table, Key::Takes, s.takes.as_str())?;
    Ok(table)
}

fn session_table(alloc: Global, s: &Session) -> Result<Table, NoMemory>
    requires { IsFormed s.now }
    ensures table { IfOk result (λ t. table_view t ≡ spec.session_table s.now) }
    ensures kept { OnOk result (IsKept s.now) }
{
    let decls = s.sources.as_slice();
    let routes = s.routes.as_slice();
    let own = s.tracks.as_slice();
    let last = routes.len() - 1;
    let mut table = Table::new(alloc);
    put(
        alloc,
        &mut table,
        Key::Session,
        Value::Table(head_table(alloc, s)?),
    )?;
    put(alloc, &mut table, Key::Source, sources(alloc, decls)?)?;
    put(
        alloc,
        &mut table,
        Key::Track,
        tracks(alloc, decls, routes, own)?,
    )?;
    let others = &routes[own.len()..last];
    put(alloc, &mut table, Key::Bus, busses(alloc, routes, others)?)?;
    let master = master_table(alloc, &routes[last])?;
    put(alloc, &mut table, Key::Master, Value::Table(master))?;
    Ok(table)
}

/// The text of a session, in TOML: of version 2, with every key but that of an input that a track
/// doesn't take. Reading it gives the session again.
pub fn text_of_session(alloc: Global, s: &Session) -> Result<Vec<u8>, NoMemory>
    requires { IsValid s.now }
    ensures keys { IfOk result (λ text. document text.items ≡ Ok (spec.session_table s.now)) }
    ensures read_back { IfOk result (λ text. session text.items ≡ Ok (spec.as_read s.now)) }
{
    let table = session_table(alloc, s)?;
    match toml::table_to_string(alloc, &table) {
        Ok(text) => Ok(text.into_bytes()),
        // A session has no dates, so that this is want of memory.
        Err(_) => Err(NoMemory),
    }
}
