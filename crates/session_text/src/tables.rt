//! Tables that are filled key by key.
ghost use Rattle.std.specs.Prelude.{◌≡◌, ◌^◌, ◌<◌, OnOk};
ghost use Rattle.toml.specs.Data.{string, boolean};
ghost use Rattle.toml.specs.View.{view, table_view};
ghost use Rattle.session_walk.specs.Words as words;
ghost use Rattle.session_text.specs.Tables.{with_member, number};

use ses_io::NoMemory;
use session_model::Key;
use session_walk::word;
use std::alloc::Global;
use toml::{Table, Value};

/// Puts a value at a key.
pub(crate) fn put(alloc: Global, table: &mut Table, key: Key, value: Value) -> Result<(), NoMemory>
    ensures { OnOk result (table_view table.new
        ≡ with_member (words.word key) (view value) (table_view table.old)) }
{
    let name = String::from_str(alloc, word(key))?;
    table.insert(name, value)?;
    Ok(())
}

/// Puts a text at a key.
pub(crate) fn put_text(
    alloc: Global,
    table: &mut Table,
    key: Key,
    text: &str,
) -> Result<(), NoMemory>
    ensures { OnOk result (table_view table.new
        ≡ with_member (words.word key) (string text.now) (table_view table.old)) }
{
    let value = Value::string(alloc, text)?;
    put(alloc, table, key, value)
}

/// Puts a number at a key, one that a 64-bit integer holds.
pub(crate) fn put_number(alloc: Global, table: &mut Table, key: Key, n: u64) -> Result<(), NoMemory>
    requires { n < 2 ^ 63 }
    ensures { OnOk result (table_view table.new
        ≡ with_member (words.word key) (number n) (table_view table.old)) }
{
    put(alloc, table, key, Value::Integer(n as i64))
}

/// Puts a truth value at a key.
pub(crate) fn put_flag(alloc: Global, table: &mut Table, key: Key, on: bool) -> Result<(), NoMemory>
    ensures { OnOk result (table_view table.new
        ≡ with_member (words.word key) (boolean on) (table_view table.old)) }
{
    put(alloc, table, key, Value::Boolean(on))
}
