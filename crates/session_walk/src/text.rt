//! A whole text: its own keys first, then part by part.
ghost use Rattle.std.specs.Prelude.{◌≡◌, ◌≤◌, ◌+◌, length, Ok, IfOk};
ghost use Rattle.toml.specs.Data.{no_members};
ghost use Rattle.toml.specs.View.{view, table_view};
ghost use Rattle.session_walk.specs.Fault.{Gives};
ghost use Rattle.session_walk.specs.Section.{section_of};
ghost use Rattle.session_walk.specs.Text as spec;
ghost use Rattle.session_walk.specs.TextViews.{lent_table, GivesOutline, outline_view, HasRoom, GivesDocument};

use crate::arrays::{entries, tables};
use crate::desk::master_of;
use crate::fault::SessionFault;
use crate::parts::head_of;
use crate::said::Written;
use crate::section::{Section, only, row_of, single, value_at};
use crate::values::needed;
use ses_units::limits::{ROUTES, SOURCES, TRACKS};
use session_model::{Key, Part, SessionRefusal};
use std::alloc::Global;
use toml::{Table, Value};

/// The tables of a document.
#[derive(Drop)]
pub(crate) struct Outline<'a> {
    pub session: &'a Table,
    pub sources: Vec<&'a Table>,
    pub tracks: Vec<&'a Table>,
    pub busses: Vec<&'a Table>,
    pub master: &'a Table,
}

fn table_of<'a>(part: Section<'_>, key: Key, value: &'a Value) -> Result<&'a Table, SessionRefusal>
    ensures { lent_table result ≡ spec.table_of (section_of part.entry) key (view value.now) }
{
    match value.as_table() {
        Some(table) => Ok(table),
        None => Err(SessionRefusal::Kind(part.place, key)),
    }
}

fn table<'a>(part: Section<'a>, key: Key) -> Result<&'a Table, SessionRefusal>
    ensures { lent_table result ≡ spec.table (section_of part.entry) key }
{
    let value = needed(part, key)?;
    table_of(part, key, value)
}

fn table_or<'a>(
    part: Section<'a>,
    key: Key,
    default: &'a Table,
) -> Result<&'a Table, SessionRefusal>
    requires { table_view default.now ≡ no_members }
    ensures { lent_table result ≡ spec.table_or_empty (section_of part.entry) key }
{
    match value_at(part, key) {
        None => Ok(default),
        Some(value) => table_of(part, key, value),
    }
}

// The tables of a document; an absent master is the empty table.
#[tactic(auto, unfolding(crate::specs::Text::outline_of))]
fn outline_of<'a>(
    alloc: Global,
    part: Section<'a>,
    empty: &'a Table,
) -> Result<Outline<'a>, SessionFault>
    requires { table_view empty.now ≡ no_members }
    ensures outline { GivesOutline (spec.outline_of (section_of part.entry)) result }
    ensures room { IfOk result HasRoom }
{
    only(
        part,
        &[Key::Session, Key::Source, Key::Track, Key::Bus, Key::Master],
    )?;
    let session = table(part, Key::Session)?;
    let sources = tables(alloc, part, Key::Source, SOURCES as usize)?;
    let tracks = tables(alloc, part, Key::Track, TRACKS as usize)?;
    let busses = tables(alloc, part, Key::Bus, (ROUTES - 1) as usize - tracks.len())?;
    let master = table_or(part, Key::Master, empty)?;
    Ok(Outline {
        session,
        sources,
        tracks,
        busses,
        master,
    })
}

#[tactic(auto, unfolding(crate::specs::Text::parts_of))]
fn parts_of(alloc: Global, outline: &Outline<'_>) -> Result<Written, SessionFault>
    requires { HasRoom outline.now }
    ensures { Gives (spec.parts_of (outline_view outline.now)) result }
{
    let session = Section {
        place: single(Part::Session),
        table: outline.session,
    };
    let head = head_of(session)?;
    let sources = entries(
        alloc,
        head.version,
        row_of(Part::Source),
        SOURCES,
        &outline.sources,
    )?;
    let tracks = entries(
        alloc,
        head.version,
        row_of(Part::Track),
        TRACKS,
        &outline.tracks,
    )?;
    let busses = entries(
        alloc,
        head.version,
        row_of(Part::Bus),
        ROUTES - 1,
        &outline.busses,
    )?;
    let master = Section {
        place: single(Part::Master),
        table: outline.master,
    };
    let master = master_of(alloc, master)?;
    Ok(Written {
        head,
        sources,
        tracks,
        busses,
        master,
    })
}

// The table of a document; NotToml where the bytes are none.
#[tactic(auto, unfolding(crate::specs::Text::document))]
fn document(alloc: Global, bytes: &[u8]) -> Result<Table, SessionFault>
    ensures { GivesDocument (spec.document bytes.now) result }
{
    match toml::table_from_slice(alloc, bytes) {
        Ok(table) => Ok(table),
        Err(e) => {
            if e.is_memory() {
                Err(SessionFault::NoMemory)
            } else {
                Err(SessionFault::Refused(SessionRefusal::NotToml))
            }
        }
    }
}

/// What the bytes say, each key in range.
#[tactic(auto, unfolding(crate::specs::Text::written))]
pub fn written(alloc: Global, bytes: &[u8]) -> Result<Written, SessionFault>
    ensures { Gives (spec.written bytes.now) result }
{
    let table = document(alloc, bytes)?;
    let empty = Table::new(alloc);
    let top = Section {
        place: single(Part::Top),
        table: &table,
    };
    let outline = outline_of(alloc, top, &empty)?;
    parts_of(alloc, &outline)
}
