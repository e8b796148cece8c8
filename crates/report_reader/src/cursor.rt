//! The lines of a file, one after the other.
ghost use Rattle.std.specs.Prelude.{◌≡◌, ℕ, ◌+◌, ◌<◌, ◌≤◌, ◌^◌, ◌==◌, not, [], ◌∷◌, length, MatchOption, OnSome, is_some, if◌then◌else◌};
ghost use Rattle.std.specs.List.{prefix_len};
ghost use Rattle.report_reader.specs.Reading.{lines_of};

/// What is left of a file, and the number of its next line, from 1.
#[derive(Drop)]
pub(crate) struct Lines<'a> {
    pub rest: &'a [u8],
    pub number: u64,
    ghost fits: { length rest.now + number < 2 ^ 64 },
}

// How many bytes stand before the first line feed, or in all.
fn line_length(bytes: &[u8]) -> usize
    ensures count { result ≡ prefix_len (λ b. not (b == 10)) bytes.now }
    ensures within { result ≤ length bytes.now }
{
    bytes.iter().take_while(|b| **b != b'\n').count()
}

impl<'a> Lines<'a> {
    /// All the lines of a file.
    pub(crate) fn of(bytes: &'a [u8]) -> Lines<'a>
        ensures rest { result.rest.now ≡ bytes.now }
        ensures number { result.number ≡ 1 }
    {
        Lines {
            rest: bytes,
            number: 1,
        }
    }

    /// The next line, without its line feed.
    pub(crate) fn next(&mut self) -> Option<&'a [u8]>
        ensures line { MatchOption result (lines_of self.old.rest.now ≡ [])
            (λ line. lines_of self.old.rest.now ≡ line.now ∷ lines_of self.new.rest.now) }
        ensures number { self.new.number
            ≡ self.old.number + (if is_some result then 1 else 0) }
        ensures shorter { OnSome result
            (length self.new.rest.now < length self.old.rest.now) }
    {
        let length = line_length(self.rest);
        if length == self.rest.len() {
            return None;
        }
        let line = &self.rest[..length];
        self.rest = &self.rest[length + 1..];
        self.number += 1;
        Some(line)
    }

    /// How many lines are left.
    pub(crate) fn left(&self) -> usize
        ensures { result ≡ length (lines_of self.now.rest.now) }
    {
        self.rest.iter().filter(|b| **b == b'\n').count()
    }
}
