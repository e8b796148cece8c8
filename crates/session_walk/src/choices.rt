//! Values that are one of a few: bits, versions, modes and shapes.
ghost use Rattle.std.specs.Prelude.{◌≡◌};
ghost use Rattle.toml.specs.View.{view};
ghost use Rattle.session_walk.specs.Section.{section_of};
ghost use Rattle.session_walk.specs.Values as spec;

use crate::said::Version;
use crate::section::{Section, value_at};
use crate::values::{integer_of, needed, text_of};
use ses_units::{Bits, Mode, Shape};
use session_model::{Key, SessionRefusal};
use toml::Value;

// ---- of whole numbers

fn bits_in(n: i64) -> Option<Bits>
    ensures { result ≡ spec.bits_in n }
{
    match n {
        16 => Some(Bits::B16),
        24 => Some(Bits::B24),
        _ => None,
    }
}

fn bits_of(part: Section<'_>, key: Key, value: &Value) -> Result<Bits, SessionRefusal>
    ensures { result ≡ spec.bits_of (section_of part.entry) key (view value.now) }
{
    let n = integer_of(part, key, value)?;
    match bits_in(n) {
        Some(bits) => Ok(bits),
        None => Err(SessionRefusal::Range(part.place, key)),
    }
}

/// The bits of a sample at a key.
pub(crate) fn bits(part: Section<'_>, key: Key) -> Result<Bits, SessionRefusal>
    ensures { result ≡ spec.bits (section_of part.entry) key }
{
    let value = needed(part, key)?;
    bits_of(part, key, value)
}

fn version_in(n: i64) -> Option<Version>
    ensures { result ≡ spec.version_in n }
{
    match n {
        1 => Some(Version::One),
        2 => Some(Version::Two),
        _ => None,
    }
}

fn version_of(part: Section<'_>, key: Key, value: &Value) -> Result<Version, SessionRefusal>
    ensures { result ≡ spec.version_of (section_of part.entry) key (view value.now) }
{
    let n = integer_of(part, key, value)?;
    match version_in(n) {
        Some(version) => Ok(version),
        None => Err(SessionRefusal::Range(part.place, key)),
    }
}

/// The version at a key.
pub(crate) fn version(part: Section<'_>, key: Key) -> Result<Version, SessionRefusal>
    ensures { result ≡ spec.version (section_of part.entry) key }
{
    let value = needed(part, key)?;
    version_of(part, key, value)
}

// ---- of texts

fn mode_in(text: &str) -> Option<Mode>
    ensures { result ≡ spec.mode_in text.now }
{
    if text == "manual" {
        Some(Mode::Manual)
    } else if text == "play" {
        Some(Mode::Play)
    } else {
        None
    }
}

fn mode_of(part: Section<'_>, key: Key, value: &Value) -> Result<Mode, SessionRefusal>
    ensures { result ≡ spec.mode_of (section_of part.entry) key (view value.now) }
{
    let text = text_of(part, key, value)?;
    match mode_in(text) {
        Some(mode) => Ok(mode),
        None => Err(SessionRefusal::Range(part.place, key)),
    }
}

/// The mode at a key, manual where the key is absent.
pub(crate) fn mode_or(part: Section<'_>, key: Key) -> Result<Mode, SessionRefusal>
    ensures { result ≡ spec.mode_or (section_of part.entry) key }
{
    match value_at(part, key) {
        None => Ok(Mode::Manual),
        Some(value) => mode_of(part, key, value),
    }
}

fn shape_in(text: &str) -> Option<Shape>
    ensures { result ≡ spec.shape_in text.now }
{
    if text == "linear" {
        Some(Shape::Linear)
    } else if text == "slow" {
        Some(Shape::Slow)
    } else {
        None
    }
}

fn shape_of(part: Section<'_>, key: Key, value: &Value) -> Result<Shape, SessionRefusal>
    ensures { result ≡ spec.shape_of (section_of part.entry) key (view value.now) }
{
    let text = text_of(part, key, value)?;
    match shape_in(text) {
        Some(shape) => Ok(shape),
        None => Err(SessionRefusal::Range(part.place, key)),
    }
}

/// The shape at a key, linear where the key is absent.
pub(crate) fn shape_or(part: Section<'_>, key: Key) -> Result<Shape, SessionRefusal>
    ensures { result ≡ spec.shape_or (section_of part.entry) key }
{
    match value_at(part, key) {
        None => Ok(Shape::Linear),
        Some(value) => shape_of(part, key, value),
    }
}
