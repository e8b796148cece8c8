//! The words of a line, parted by spaces and tabs.
ghost use Rattle.std.specs.Prelude.{◌≡◌, ℕ, ◌≤◌, List, length, take};
ghost use Rattle.edit_script.specs.Words as spec;
ghost use Rattle.edit_script.specs.Kept.{kept, Keeps, with_part};

use arrayvec::ArrayVec;

/// The words of a line: no command has more than the eight that are kept, and all are counted.
#[derive(Drop)]
pub(crate) struct Words<'a> {
    kept: ArrayVec<&'a [u8], 8>,
    count: u32,
}

fn is_blank(b: u8) -> bool
    ensures { result ≡ spec.is_blank b }
{
    b == b' ' || b == b'\t'
}

impl<'a> Words<'a> {
    /// The words of a line of at most 4,096 bytes.
    pub(crate) fn of(line: &'a [u8]) -> Words<'a>
        requires { length line.now ≤ spec.longest }
        ensures first { kept result ≡ take 8 (spec.words_of line.now) }
        ensures count { result.count ≡ length (spec.words_of line.now) }
    {
        let mut words = Words {
            kept: ArrayVec::new(),
            count: 0,
        };
        for part in line.split(|b| is_blank(*b)) {
            words.add(part);
        }
        words
    }

    // What stands between two blanks is a word, if it has bytes.
    fn add(&mut self, part: &'a [u8])
        ensures { (all : List (List ℕ)) → Keeps all self.old
            → Keeps (with_part all part.now) self.new }
    {
        if part.is_empty() {
            return;
        }
        if !self.kept.is_full() {
            self.kept.push(part);
        }
        self.count = self.count.saturating_add(1);
    }

    /// How many words the line has.
    pub(crate) fn count(&self) -> u32
        ensures { result ≡ self.now.count }
    {
        self.count
    }

    /// The word at a place, counted from 1; empty past the last.
    pub(crate) fn at(&self, i: u32) -> &'a [u8]
        requires { 1 ≤ i }
        ensures { result.now ≡ spec.word_at (kept self.now) i }
    {
        let word = self.kept.as_slice().get(i as usize - 1);
        word.copied().unwrap_or(b"")
    }
}
