//! The tables of a track's regions.
ghost use Rattle.std.specs.Prelude.{◌≡◌, ◌<◌, length, map, All, IfOk, OnOk};
ghost use Rattle.toml.specs.View.{view, table_view};
ghost use Rattle.session_model.specs.Playlist.{IsPlaylist};
ghost use Rattle.session_model.specs.Region.{region_of, IsRegion};
ghost use Rattle.session_text.specs.Parts as parts;
ghost use Rattle.session_text.specs.Said.{said_region};
ghost use Rattle.session_text.specs.Tables as spec;

use crate::names::source_name;
use crate::tables::{put_flag, put_number, put_text};
use crate::words::shape_word;
use ses_io::NoMemory;
use session_model::{Key, Playlist, Region, SourceDecl};
use std::alloc::Global;
use toml::{Table, Value};

#[tactic(auto, unfolding(crate::specs::Parts::region_table, crate::specs::Said::said_region))]
fn region_table(alloc: Global, sources: &[SourceDecl], r: &Region) -> Result<Table, NoMemory>
    requires source { r.now.source < length sources.now }
    requires limits { IsRegion (region_of r.now) }
    ensures { IfOk result (λ t. table_view t
        ≡ parts.region_table (said_region (map (λ d. d.name) sources.now) (region_of r.now))) }
{
    let mut table = Table::new(alloc);
    put_number(alloc, &mut table, Key::Id, u64::from(r.id))?;
    put_text(
        alloc,
        &mut table,
        Key::Source,
        source_name(sources, r.source),
    )?;
    put_number(alloc, &mut table, Key::Layer, u64::from(r.layer))?;
    put_number(alloc, &mut table, Key::Gain, u64::from(r.gain.value()))?;
    put_flag(alloc, &mut table, Key::Opaque, r.opaque)?;
    put_number(alloc, &mut table, Key::Start, r.start)?;
    put_number(alloc, &mut table, Key::Length, r.length)?;
    put_number(alloc, &mut table, Key::At, r.at)?;
    put_number(alloc, &mut table, Key::FadeIn, r.fade_in)?;
    put_number(alloc, &mut table, Key::FadeOut, r.fade_out)?;
    put_text(alloc, &mut table, Key::ShapeIn, shape_word(r.shape_in))?;
    put_text(alloc, &mut table, Key::ShapeOut, shape_word(r.shape_out))?;
    Ok(table)
}

/// The tables of the regions of a playlist.
pub(crate) fn regions(
    alloc: Global,
    sources: &[SourceDecl],
    list: &Playlist,
) -> Result<Value, NoMemory>
    requires { All (λ r. r.source < length sources.now) list.now }
    ensures value { IfOk result (λ v. view v ≡ spec.tables parts.region_table
        (map (said_region (map (λ d. d.name) sources.now)) list.now)) }
    ensures kept { OnOk result (IsPlaylist list.now) }
{
    let mut tables = Vec::new(alloc);
    for r in list.regions() {
        tables.push(Value::Table(region_table(alloc, sources, r)?))?;
    }
    Ok(Value::Array(tables))
}
