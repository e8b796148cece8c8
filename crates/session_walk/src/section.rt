//! A part of a session's text: where it stands, its keys and their values.
ghost use Rattle.std.specs.Prelude.{◌≡◌, bytes_eq, string_bytes, map};
ghost use Rattle.std.specs.List.{list_any, list_all};
ghost use Rattle.std.specs.BTreeMap.{keys};
ghost use Rattle.toml.specs.Data.{get_member};
ghost use Rattle.toml.specs.View.{table_view};
ghost use Rattle.session_walk.specs.Section as spec;
ghost use Rattle.session_walk.specs.Section.{section_of, seen};
ghost use Rattle.session_walk.specs.Words as words;

use crate::words::word;
use session_model::{Key, Part, Place, SessionRefusal};
use toml::{Table, Value};

/// A part of the text.
#[derive(Clone, Copy)]
pub(crate) struct Section<'a> {
    pub place: Place,
    pub table: &'a Table,
}

fn look_up<'a>(table: &'a Table, key: &str) -> Option<&'a Value>
    ensures { seen result ≡ get_member key.now (table_view table.now) }
{
    table.get(key)
}

/// The value at a key.
pub(crate) fn value_at<'a>(part: Section<'a>, key: Key) -> Option<&'a Value>
    ensures { seen result ≡ spec.value_at (section_of part.entry) key }
{
    look_up(part.table, word(key))
}

fn is_written(key: Key, text: &str) -> bool
    ensures { result ≡ bytes_eq text.now (words.word key) }
{
    text == word(key)
}

fn is_known(known: &[Key], text: &str) -> bool
    ensures { result ≡ list_any (λ k. bytes_eq text.now (words.word k)) known.now }
{
    known.iter().any(|key| is_written(*key, text))
}

fn are_known(known: &[Key], table: &Table) -> bool
    ensures { result
        ≡ list_all (λ text. list_any (λ k. bytes_eq (string_bytes text) (words.word k)) known.now)
        (keys table.now) }
{
    table.keys().all(|text| is_known(known, text.as_str()))
}

/// Refuses a part that has another key.
pub(crate) fn only(part: Section<'_>, known: &[Key]) -> Result<(), SessionRefusal>
    ensures { result ≡ spec.only (section_of part.entry) known.now }
{
    if are_known(known, part.table) {
        Ok(())
    } else {
        Err(SessionRefusal::Unknown(part.place))
    }
}

/// Refuses where a rule is broken.
pub(crate) fn holds(rule: bool, refusal: SessionRefusal) -> Result<(), SessionRefusal>
    ensures { result ≡ spec.holds rule refusal }
{
    if rule { Ok(()) } else { Err(refusal) }
}

fn has_items(part: Part) -> bool
    ensures { result ≡ spec.has_items part }
{
    matches!(part, Part::Region | Part::TrackSend | Part::BusSend)
}

/// The place of an entry, counted from 1, of an array whose entries stand as `base` says.
pub(crate) fn nth(base: Place, n: u32) -> Place
    ensures { result ≡ spec.nth base n }
{
    if has_items(base.part) {
        Place { item: n, ..base }
    } else {
        Place { row: n, ..base }
    }
}

/// The place of a single table.
pub(crate) fn single(part: Part) -> Place
    ensures { result ≡ spec.single part }
{
    Place {
        part,
        row: 1,
        item: 0,
    }
}

/// Where the entries of an array stand in the document.
pub(crate) fn row_of(part: Part) -> Place
    ensures { result ≡ spec.row_of part }
{
    Place {
        part,
        row: 0,
        item: 0,
    }
}

/// Where the regions or sends of a row stand.
pub(crate) fn item_of(part: Part, row: u32) -> Place
    ensures { result ≡ spec.item_of part row }
{
    Place { part, row, item: 0 }
}
