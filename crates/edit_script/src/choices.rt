//! What the words behind a command say, each by its form.
ghost use Rattle.std.specs.Prelude.{◌≡◌, ◌≤◌, true, false, ◌&&◌, nat_le, length, IfOk};
ghost use Rattle.std.specs.Option.{option_map};
ghost use Rattle.std.specs.Char.{is_ascii_digit};
ghost use Rattle.std.specs.List.{list_all};
ghost use Rattle.edit_script.specs.Forms as spec;
ghost use Rattle.edit_script.specs.Reading.{seen_as, value_at, found};
ghost use Rattle.edit_script.specs.Words.{word_at};
ghost use Rattle.edit_script.specs.Kept.{kept};

use crate::refusal::LineRefusal;
use crate::words::Words;
use ses_units::limits::CYCLES;
use ses_units::{Mode, Name, Shape};
use std::str;

fn are_digits(word: &[u8]) -> bool
    ensures { result ≡ list_all is_ascii_digit word.now }
{
    word.iter().all(|b| b.is_ascii_digit())
}

fn is_numeral(word: &[u8]) -> bool
    ensures { result ≡ (nat_le (length word.now) 20 && list_all is_ascii_digit word.now) }
{
    word.len() <= 20 && are_digits(word)
}

// The number that 1 to 20 decimal digits stand for, where 64 bits hold it.
fn number(word: &[u8]) -> Option<u64>
    ensures { result ≡ spec.within 0 spec.largest (spec.number word.now) }
{
    if !is_numeral(word) {
        return None;
    }
    let digits = str::from_utf8(word).ok()?;
    digits.parse().ok()
}

fn name(word: &[u8]) -> Option<Name>
    ensures { option_map spec.Named result ≡ spec.value_of spec.Name word.now }
{
    let text = str::from_utf8(word).ok()?;
    Name::new(text).ok()
}

impl<'a> Words<'a> {
    /// The name that word i is.
    pub(crate) fn name(&self, i: u32) -> Result<Name, LineRefusal>
        requires { 1 ≤ i }
        ensures { seen_as spec.Named result ≡ value_at spec.Name i (kept self.now) }
    {
        name(self.at(i)).ok_or(LineRefusal::BadName(i))
    }

    /// The number that word i is, from a least to a most.
    pub(crate) fn whole(&self, i: u32, least: u64, most: u64) -> Result<u64, LineRefusal>
        requires { 1 ≤ i }
        ensures value { seen_as spec.Number result
            ≡ value_at (spec.Whole least most) i (kept self.now) }
        ensures low { IfOk result (λ n. least ≤ n) }
        ensures high { IfOk result (λ n. n ≤ most) }
    {
        match number(self.at(i)) {
            Some(n) if least <= n && n <= most => Ok(n),
            _ => Err(LineRefusal::Number(i)),
        }
    }

    /// Any number of 64 bits.
    pub(crate) fn number(&self, i: u32) -> Result<u64, LineRefusal>
        requires { 1 ≤ i }
        ensures { seen_as spec.Number result ≡ value_at spec.any i (kept self.now) }
    {
        self.whole(i, 0, u64::MAX)
    }

    /// A length, in frames.
    pub(crate) fn length(&self, i: u32) -> Result<u64, LineRefusal>
        requires { 1 ≤ i }
        ensures { seen_as spec.Number result ≡ value_at spec.long i (kept self.now) }
    {
        self.whole(i, 1, u64::MAX)
    }

    /// The id of a region.
    pub(crate) fn id(&self, i: u32) -> Result<u32, LineRefusal>
        requires { 1 ≤ i }
        ensures { seen_as spec.Number result ≡ value_at spec.region_id i (kept self.now) }
    {
        Ok(self.whole(i, 1, 999_999)? as u32)
    }

    /// A layer.
    pub(crate) fn layer(&self, i: u32) -> Result<u32, LineRefusal>
        requires { 1 ≤ i }
        ensures { seen_as spec.Number result ≡ value_at spec.layer i (kept self.now) }
    {
        Ok(self.whole(i, 0, 65_535)? as u32)
    }

    /// A number of cycles.
    pub(crate) fn cycles(&self, i: u32) -> Result<u32, LineRefusal>
        requires { 1 ≤ i }
        ensures { seen_as spec.Number result ≡ value_at spec.cycles i (kept self.now) }
    {
        Ok(self.whole(i, 1, u64::from(CYCLES))? as u32)
    }

    // Whether word i is the first of two.
    fn is_first(&self, i: u32, first: &[u8], second: &[u8]) -> Result<bool, LineRefusal>
        requires { 1 ≤ i }
        ensures { result ≡ found (spec.wrong spec.OnOff i)
            (spec.choice first.now true second.now false (word_at (kept self.now) i)) }
    {
        let word = self.at(i);
        if word == first {
            Ok(true)
        } else if word == second {
            Ok(false)
        } else {
            Err(LineRefusal::Choice(i))
        }
    }

    /// Whether word i switches on.
    pub(crate) fn switch(&self, i: u32) -> Result<bool, LineRefusal>
        requires { 1 ≤ i }
        ensures { seen_as spec.Switch result ≡ value_at spec.OnOff i (kept self.now) }
    {
        self.is_first(i, b"on", b"off")
    }

    /// What a route hears by word i.
    pub(crate) fn mode(&self, i: u32) -> Result<Mode, LineRefusal>
        requires { 1 ≤ i }
        ensures { seen_as spec.Mode result ≡ value_at spec.ManualPlay i (kept self.now) }
    {
        if self.is_first(i, b"manual", b"play")? {
            Ok(Mode::Manual)
        } else {
            Ok(Mode::Play)
        }
    }

    /// Whether word i says before the fader.
    pub(crate) fn pre(&self, i: u32) -> Result<bool, LineRefusal>
        requires { 1 ≤ i }
        ensures { seen_as spec.Pre result ≡ value_at spec.PrePost i (kept self.now) }
    {
        self.is_first(i, b"pre", b"post")
    }

    /// The shape of a fade that word i says.
    pub(crate) fn shape(&self, i: u32) -> Result<Shape, LineRefusal>
        requires { 1 ≤ i }
        ensures { seen_as spec.Shape result ≡ value_at spec.LinearSlow i (kept self.now) }
    {
        if self.is_first(i, b"linear", b"slow")? {
            Ok(Shape::Linear)
        } else {
            Ok(Shape::Slow)
        }
    }

    /// Refuses word i where it isn't `off`.
    pub(crate) fn off(&self, i: u32) -> Result<(), LineRefusal>
        requires { 1 ≤ i }
        ensures { seen_as (λ _. spec.Off) result ≡ value_at spec.JustOff i (kept self.now) }
    {
        if self.at(i) == b"off".as_slice() {
            Ok(())
        } else {
            Err(LineRefusal::Choice(i))
        }
    }
}
