//! A line that is written piece by piece.
ghost use Rattle.std.specs.Prelude.{◌≡◌, ◌+◌, ◌≤◌, ◌++◌, length, decimal};
ghost use Rattle.fault_lines.specs.File.{two_numbers};

use arrayvec::ArrayString;
use itoa::Buffer;
use ses_units::Name;

/// The pieces so far. The longest line fits.
#[derive(Clone, Copy)]
pub(crate) struct Line {
    pub text: ArrayString<96>,
}

impl Line {
    /// A line of one piece.
    pub(crate) fn of(text: &str) -> Line
        requires { length text.now ≤ 96 }
        ensures { result.text.bytes ≡ text.now }
    {
        let mut line = ArrayString::new();
        line.push_str(text);
        Line { text: line }
    }

    /// The line with a text more.
    pub(crate) fn word(self, text: &str) -> Line
        requires { length self.text.bytes + length text.now ≤ 96 }
        ensures bytes { result.text.bytes ≡ self.text.bytes ++ text.now }
        ensures long { length result.text.bytes ≡ length self.text.bytes + length text.now }
    {
        let mut line = self.text;
        line.push_str(text);
        Line { text: line }
    }

    /// The line with a name more.
    pub(crate) fn name(self, name: &Name) -> Line
        requires { length self.text.bytes + 24 ≤ 96 }
        ensures bytes { result.text.bytes ≡ self.text.bytes ++ name.now }
        ensures long { length result.text.bytes ≤ length self.text.bytes + 24 }
    {
        self.word(name.as_str())
    }

    /// The line with a number more.
    pub(crate) fn number(self, n: u64) -> Line
        requires { length self.text.bytes + 20 ≤ 96 }
        ensures bytes { result.text.bytes ≡ self.text.bytes ++ decimal n }
        ensures long { length result.text.bytes ≤ length self.text.bytes + 20 }
    {
        self.word(Buffer::new().format(n))
    }

    /// The line with two numbers more.
    pub(crate) fn numbers(self, first: u64, second: u64) -> Line
        requires { length self.text.bytes + 41 ≤ 96 }
        ensures bytes { result.text.bytes ≡ self.text.bytes ++ two_numbers first second }
        ensures long { length result.text.bytes ≤ length self.text.bytes + 41 }
    {
        self.number(first).word(" ").number(second)
    }
}
