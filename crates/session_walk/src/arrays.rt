//! Arrays of a session's text, and the tables in them.
ghost use Rattle.std.specs.Prelude.{◌≡◌, ◌≤◌, ◌<◌, ◌^◌, IfOk, length, map, option_map};
ghost use Rattle.toml.specs.Data.{as_table};
ghost use Rattle.toml.specs.View.{view, table_view};
ghost use Rattle.session_walk.specs.Arrays as spec;
ghost use Rattle.session_walk.specs.Arrays.{lent_all};
ghost use Rattle.session_walk.specs.Fault.{Gives, GivesTables};
ghost use Rattle.session_walk.specs.Section as spec_section;
ghost use Rattle.session_walk.specs.Section.{section_of, Read};
ghost use Rattle.session_walk.specs.declared.said.Version as said;

use crate::fault::SessionFault;
use crate::said::Version;
use crate::section::{Section, holds, nth, value_at};
use ses_io::FixedList;
use session_model::{Key, Place, SessionRefusal};
use std::alloc::{AllocError, Global};
use toml::{Table, Value};

fn array_of<'a>(
    part: Section<'_>,
    key: Key,
    value: &'a Value,
) -> Result<&'a [Value], SessionRefusal>
    ensures { lent_all result ≡ spec.array_of (section_of part.entry) key (view value.now) }
{
    match value.as_array() {
        Some(items) => Ok(items.as_slice()),
        None => Err(SessionRefusal::Kind(part.place, key)),
    }
}

/// The array at a key, the empty one where the key is absent.
pub(crate) fn array<'a>(part: Section<'a>, key: Key) -> Result<&'a [Value], SessionRefusal>
    ensures { lent_all result ≡ spec.array (section_of part.entry) key }
{
    match value_at(part, key) {
        None => Ok(&[]),
        Some(value) => array_of(part, key, value),
    }
}

// The tables that the values are, where every one is a table.
fn each_table<'a>(alloc: Global, values: &'a [Value]) -> Result<Option<Vec<&'a Table>>, AllocError>
    ensures { IfOk result (λ all. option_map (λ v. map (λ t. table_view t.now) v.items) all
        ≡ spec.each as_table (map view values.now)) }
{
    let mut tables = Vec::new(alloc);
    for value in values {
        let Some(table) = value.as_table() else {
            return Ok(None);
        };
        tables.push(table)?;
    }
    Ok(Some(tables))
}

/// The array of tables at a key, at most so many.
pub(crate) fn tables<'a>(
    alloc: Global,
    part: Section<'a>,
    key: Key,
    most: usize,
) -> Result<Vec<&'a Table>, SessionFault>
    ensures tables { GivesTables (spec.tables (section_of part.entry) key most) result }
    ensures few { IfOk result (λ rows. length rows.items ≤ most) }
{
    let values = array(part, key)?;
    let Some(rows) = each_table(alloc, values)? else {
        return Err(SessionFault::Refused(SessionRefusal::Kind(part.place, key)));
    };
    holds(rows.len() <= most, SessionRefusal::Range(part.place, key))?;
    Ok(rows)
}

/// What an entry of an array of tables is read as.
pub(crate) trait Entry: Sized + Drop {
    /// What a part of the text says in a version.
    ghost says: { said.Version → spec_section.Section → Read Self };

    /// Reads a part of the text.
    fn read(alloc: Global, version: Version, part: Section<'_>) -> Result<Self, SessionFault>
        ensures { Gives (says version (section_of part.entry)) result };
}

/// The entries of an array of tables, at most as many as there is room for.
pub(crate) fn entries<T: Entry>(
    alloc: Global,
    version: Version,
    base: Place,
    room: u32,
    rows: &[&Table],
) -> Result<FixedList<T>, SessionFault>
    requires room { length rows.now ≤ room }
    requires few { room ≤ 256 }
    ensures { Gives (spec.entries (T.says version) base room
        (map (λ t. table_view t.now) rows.now)) result }
{
    let mut all = FixedList::new(alloc, room)?;
    for (i, row) in rows.iter().enumerate() {
        let place = nth(base, i as u32 + 1);
        let one = T::read(alloc, version, Section { place, table: *row })?;
        all.push(one);
    }
    Ok(all)
}
