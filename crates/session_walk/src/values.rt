//! The value at a key: missing, of another kind, out of range, or read.
ghost use Rattle.std.specs.Prelude.{◌≡◌, ◌≤◌, Ok, Err, IsTrue, IfSome, IfOk, option_map};
ghost use Rattle.toml.specs.View.{view};
ghost use Rattle.session_walk.specs.Fault.{Gives};
ghost use Rattle.session_walk.specs.Section.{section_of, lent, spoken};
ghost use Rattle.session_walk.specs.Values as spec;
ghost use Rattle.ses_units.specs.Name.{is_name};

use crate::fault::SessionFault;
use crate::section::{Section, value_at};
use ses_units::limits::LOUDEST;
use ses_units::{Gain, Name};
use session_model::{FileName, FileNameRefusal, Key, SessionRefusal};
use std::alloc::Global;
use toml::Value;

/// The value of a key that has no default.
pub(crate) fn needed<'a>(part: Section<'a>, key: Key) -> Result<&'a Value, SessionRefusal>
    ensures { lent result ≡ spec.needed (section_of part.entry) key }
{
    match value_at(part, key) {
        Some(value) => Ok(value),
        None => Err(SessionRefusal::Missing(part.place, key)),
    }
}

// ---- whole numbers

pub(crate) fn in_range(low: u64, high: u64, n: i64) -> Option<u64>
    ensures value { result ≡ spec.in_range low high n }
    ensures within { IfSome result (λ k. (low ≤ k) × (k ≤ high)) }
{
    if n < 0 {
        return None;
    }
    let n = n as u64;
    if low <= n && n <= high { Some(n) } else { None }
}

pub(crate) fn integer_of(part: Section<'_>, key: Key, value: &Value) -> Result<i64, SessionRefusal>
    ensures { result ≡ spec.integer_of (section_of part.entry) key (view value.now) }
{
    match value.as_integer() {
        Some(n) => Ok(n),
        None => Err(SessionRefusal::Kind(part.place, key)),
    }
}

pub(crate) fn whole_of(
    part: Section<'_>,
    key: Key,
    low: u64,
    high: u64,
    value: &Value,
) -> Result<u64, SessionRefusal>
    ensures value { result ≡ spec.whole_of (section_of part.entry) key low high (view value.now) }
    ensures within { IfOk result (λ k. (low ≤ k) × (k ≤ high)) }
{
    let n = integer_of(part, key, value)?;
    match in_range(low, high, n) {
        Some(n) => Ok(n),
        None => Err(SessionRefusal::Range(part.place, key)),
    }
}

/// The whole number at a key, from low to high.
pub(crate) fn whole(part: Section<'_>, key: Key, low: u64, high: u64) -> Result<u64, SessionRefusal>
    ensures value { result ≡ spec.whole (section_of part.entry) key low high }
    ensures within { IfOk result (λ k. (low ≤ k) × (k ≤ high)) }
{
    let value = needed(part, key)?;
    whole_of(part, key, low, high, value)
}

/// The same, or a default where the key is absent.
pub(crate) fn whole_or(
    part: Section<'_>,
    key: Key,
    default: u64,
    low: u64,
    high: u64,
) -> Result<u64, SessionRefusal>
    requires least { low ≤ default }
    requires most { default ≤ high }
    ensures value { result ≡ spec.whole_or (section_of part.entry) key default low high }
    ensures within { IfOk result (λ k. (low ≤ k) × (k ≤ high)) }
{
    match value_at(part, key) {
        None => Ok(default),
        Some(value) => whole_of(part, key, low, high, value),
    }
}

/// The gain at a key, unity where the key is absent.
pub(crate) fn gain_or(part: Section<'_>, key: Key) -> Result<Gain, SessionRefusal>
    ensures { result ≡ spec.gain_or (section_of part.entry) key }
{
    let n = whole_or(part, key, 65_536, 0, u64::from(LOUDEST))?;
    match Gain::new(n as u32) {
        Ok(gain) => Ok(gain),
        Err(_) => unreachable!(),
    }
}

// ---- truth values

fn flag_of(part: Section<'_>, key: Key, value: &Value) -> Result<bool, SessionRefusal>
    ensures { result ≡ spec.flag_of (section_of part.entry) key (view value.now) }
{
    match value.as_bool() {
        Some(flag) => Ok(flag),
        None => Err(SessionRefusal::Kind(part.place, key)),
    }
}

/// The truth value at a key, or a default where the key is absent.
pub(crate) fn flag_or(part: Section<'_>, key: Key, default: bool) -> Result<bool, SessionRefusal>
    ensures { result ≡ spec.flag_or (section_of part.entry) key default }
{
    match value_at(part, key) {
        None => Ok(default),
        Some(value) => flag_of(part, key, value),
    }
}

// ---- texts

pub(crate) fn text_of<'a>(
    part: Section<'_>,
    key: Key,
    value: &'a Value,
) -> Result<&'a str, SessionRefusal>
    ensures { spoken result ≡ spec.string_of (section_of part.entry) key (view value.now) }
{
    match value.as_str() {
        Some(text) => Ok(text),
        None => Err(SessionRefusal::Kind(part.place, key)),
    }
}

fn name_of(part: Section<'_>, key: Key, value: &Value) -> Result<Name, SessionRefusal>
    ensures { result ≡ spec.text_of is_name (section_of part.entry) key (view value.now) }
{
    let text = text_of(part, key, value)?;
    match Name::new(text) {
        Ok(name) => Ok(name),
        Err(_) => Err(SessionRefusal::Range(part.place, key)),
    }
}

/// The name at a key.
pub(crate) fn name(part: Section<'_>, key: Key) -> Result<Name, SessionRefusal>
    ensures { result ≡ spec.name (section_of part.entry) key }
{
    let value = needed(part, key)?;
    name_of(part, key, value)
}

// A name of the language of sessions.
fn own_name(text: &str) -> Name
    requires { IsTrue (is_name text.now) }
    ensures { result ≡ text.now }
{
    match Name::new(text) {
        Ok(name) => name,
        Err(_) => unreachable!(),
    }
}

/// The name at a key, or a default where the key is absent.
pub(crate) fn name_or(part: Section<'_>, key: Key, default: &str) -> Result<Name, SessionRefusal>
    requires { IsTrue (is_name default.now) }
    ensures { result ≡ spec.name_or (section_of part.entry) key default.now }
{
    match value_at(part, key) {
        None => Ok(own_name(default)),
        Some(value) => name_of(part, key, value),
    }
}

/// The name of a file at a key.
pub(crate) fn file(alloc: Global, part: Section<'_>, key: Key) -> Result<FileName, SessionFault>
    ensures { Gives (spec.file (section_of part.entry) key) result }
{
    let value = needed(part, key)?;
    let text = text_of(part, key, value)?;
    match FileName::new(alloc, text) {
        Ok(file) => Ok(file),
        Err(FileNameRefusal::NotFile) => Err(SessionFault::Refused(SessionRefusal::Range(
            part.place, key,
        ))),
        Err(FileNameRefusal::NoMemory) => Err(SessionFault::NoMemory),
    }
}
