//! The tables of sources.
ghost use Rattle.std.specs.Prelude.{◌≡◌, All, IfOk, OnOk};
ghost use Rattle.toml.specs.View.{view, table_view};
ghost use Rattle.session_text.specs.Kept.{IsKeptSource};
ghost use Rattle.session_text.specs.Parts as parts;
ghost use Rattle.session_text.specs.Tables as spec;

use crate::tables::{put_number, put_text};
use ses_io::NoMemory;
use session_model::{Key, SourceDecl};
use std::alloc::Global;
use toml::{Table, Value};

#[tactic(auto, unfolding(crate::specs::Parts::source_table))]
fn source_table(alloc: Global, d: &SourceDecl) -> Result<Table, NoMemory>
    ensures table { IfOk result (λ t. table_view t ≡ parts.source_table d.now) }
    ensures kept { OnOk result (IsKeptSource d.now) }
{
    let mut table = Table::new(alloc);
    put_text(alloc, &mut table, Key::Name, d.name.as_str())?;
    put_text(alloc, &mut table, Key::File, d.file.as_str())?;
    put_number(alloc, &mut table, Key::Channels, u64::from(d.channels))?;
    Ok(table)
}

/// The tables of the sources of a session.
pub(crate) fn sources(alloc: Global, decls: &[SourceDecl]) -> Result<Value, NoMemory>
    ensures value { IfOk result (λ v. view v ≡ spec.tables parts.source_table decls.now) }
    ensures kept { OnOk result (All IsKeptSource decls.now) }
{
    let mut tables = Vec::new(alloc);
    for d in decls {
        tables.push(Value::Table(source_table(alloc, d)?))?;
    }
    Ok(Value::Array(tables))
}
