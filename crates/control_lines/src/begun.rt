//! A line that was begun: as much of it is kept as says what it says.
ghost use Rattle.std.specs.Prelude.{◌≡◌, ◌≤◌, length, [], ◌∷◌, ◌++◌, List, ℕ};
ghost use Rattle.edit_script.specs.Reading.{said};
ghost use Rattle.control_lines.specs.Begun.{IsBegun, IsLast, bare};

use edit_script::{Command, LineRefusal, parse};

// One byte more than the longest line that is read, and a carriage return.
const MOST: usize = 4_097;

/// The first bytes of a line, and whether it has more.
#[derive(Drop)]
pub(crate) struct BegunLine {
    kept: [u8; MOST],
    many: usize,
    more: bool,
    ghost few: { (many ≤ 4097) × (length kept ≡ 4097) },
}

/// What a whole line says, by its bytes before the line feed.
pub(crate) fn said_before_feed(line: &[u8]) -> Result<Command, LineRefusal>
    ensures { result ≡ said (bare line.now) }
{
    parse(line.strip_suffix(b"\r").unwrap_or(line))
}

impl BegunLine {
    /// A line that has no byte yet.
    pub(crate) fn new() -> BegunLine
        ensures { IsBegun [] result.kept result.many result.more }
    {
        BegunLine {
            kept: [0; MOST],
            many: 0,
            more: false,
        }
    }

    /// One byte more.
    pub(crate) fn push(&mut self, byte: u8)
        ensures { (line : List ℕ) → IsBegun line self.old.kept self.old.many self.old.more
            → IsBegun (line ++ byte ∷ []) self.new.kept self.new.many self.new.more }
    {
        if self.many == MOST {
            self.more = true;
        } else {
            self.kept[self.many] = byte;
            self.many += 1;
        }
    }

    /// What the line says, where a line feed has come after it.
    pub(crate) fn ended(&self) -> Result<Command, LineRefusal>
        ensures { (line : List ℕ) → IsBegun line self.now.kept self.now.many self.now.more
            → result ≡ said (bare line) }
    {
        if self.more {
            return Err(LineRefusal::Long);
        }
        said_before_feed(&self.kept[..self.many])
    }

    /// What the line says, where the bytes ended after it; none where there is no byte of it.
    pub(crate) fn last(&self) -> Option<Result<Command, LineRefusal>>
        ensures { (line : List ℕ) → IsBegun line self.now.kept self.now.many self.now.more
            → IsLast line result }
    {
        if self.many == 0 {
            return None;
        }
        if self.more {
            return Some(Err(LineRefusal::Long));
        }
        Some(parse(&self.kept[..self.many]))
    }
}
