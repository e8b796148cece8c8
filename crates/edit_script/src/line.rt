//! A line that is written word by word.
ghost use Rattle.std.specs.Prelude.{◌≡◌, ◌+◌, ◌≤◌, length, true, nat_le};
ghost use Rattle.ses_units.specs.Name.{is_name};
ghost use Rattle.edit_script.specs.Forms as spec;
ghost use Rattle.edit_script.specs.Printing.{text_of, with_word};

use arrayvec::ArrayString;
use itoa::Buffer;
use ses_units::{Mode, Name, Shape};

/// The words so far, with one space between them.
#[derive(Clone, Copy)]
pub(crate) struct Line {
    pub text: ArrayString<160>,
}

impl Line {
    /// A line of one word.
    pub(crate) fn of(word: &str) -> Line
        requires { length word.now ≤ 8 }
        ensures bytes { result.text.bytes ≡ word.now }
        ensures short { length result.text.bytes ≤ 8 }
    {
        let mut text = ArrayString::new();
        text.push_str(word);
        Line { text }
    }

    /// The line with a word more.
    pub(crate) fn word(self, word: &str) -> Line
        requires { length self.text.bytes + 1 + length word.now ≤ 160 }
        ensures bytes { result.text.bytes ≡ with_word self.text.bytes word.now }
        ensures long { length result.text.bytes ≡ length self.text.bytes + 1 + length word.now }
    {
        let mut text = self.text;
        text.push_str(" ");
        text.push_str(word);
        Line { text }
    }

    /// The line with a name more.
    pub(crate) fn name(self, name: &Name) -> Line
        requires { length self.text.bytes + 25 ≤ 160 }
        ensures bytes { result.text.bytes
            ≡ with_word self.text.bytes (text_of (spec.Named name.now)) }
        ensures rule { is_name name.now ≡ true }
        ensures long { length result.text.bytes ≤ length self.text.bytes + 25 }
    {
        self.word(name.as_str())
    }

    /// The line with a number more.
    pub(crate) fn number(self, n: u64) -> Line
        requires { length self.text.bytes + 21 ≤ 160 }
        ensures bytes { result.text.bytes ≡ with_word self.text.bytes (text_of (spec.Number n)) }
        ensures fits { nat_le n spec.largest ≡ true }
        ensures long { length result.text.bytes ≤ length self.text.bytes + 21 }
    {
        self.word(Buffer::new().format(n))
    }

    /// The line with a number of 32 bits more.
    pub(crate) fn small(self, n: u32) -> Line
        requires { length self.text.bytes + 11 ≤ 160 }
        ensures bytes { result.text.bytes ≡ with_word self.text.bytes (text_of (spec.Number n)) }
        ensures fits { nat_le n spec.largest ≡ true }
        ensures long { length result.text.bytes ≤ length self.text.bytes + 11 }
    {
        self.word(Buffer::new().format(n))
    }

    /// The line with `on` or `off` more.
    pub(crate) fn switch(self, on: bool) -> Line
        requires { length self.text.bytes + 4 ≤ 160 }
        ensures bytes { result.text.bytes ≡ with_word self.text.bytes (text_of (spec.Switch on)) }
        ensures long { length result.text.bytes ≤ length self.text.bytes + 4 }
    {
        self.word(if on { "on" } else { "off" })
    }

    /// The line with what a route hears more.
    pub(crate) fn mode(self, mode: Mode) -> Line
        requires { length self.text.bytes + 7 ≤ 160 }
        ensures bytes { result.text.bytes ≡ with_word self.text.bytes (text_of (spec.Mode mode)) }
    {
        match mode {
            Mode::Manual => self.word("manual"),
            Mode::Play => self.word("play"),
        }
    }

    /// The line with `pre` or `post` more.
    pub(crate) fn pre(self, pre: bool) -> Line
        requires { length self.text.bytes + 5 ≤ 160 }
        ensures bytes { result.text.bytes ≡ with_word self.text.bytes (text_of (spec.Pre pre)) }
        ensures long { length result.text.bytes ≤ length self.text.bytes + 5 }
    {
        self.word(if pre { "pre" } else { "post" })
    }

    /// The line with the shape of a fade more.
    pub(crate) fn shape(self, shape: Shape) -> Line
        requires { length self.text.bytes + 7 ≤ 160 }
        ensures bytes { result.text.bytes ≡ with_word self.text.bytes (text_of (spec.Shape shape)) }
        ensures long { length result.text.bytes ≤ length self.text.bytes + 7 }
    {
        match shape {
            Shape::Linear => self.word("linear"),
            Shape::Slow => self.word("slow"),
        }
    }
}
