//! A folder of files by name, as it is read and as it grows.
ghost use Rattle.std.specs.Prelude.{◌≡◌, ◌+◌, ◌-◌, ◌^◌, ◌<◌, ◌≤◌, ◌↔◌, length, min, IsTrue, IfOk, OnErr};
ghost use Rattle.std.specs.Option.{option_map};
ghost use Rattle.ses_io.specs.Files.{content, HasNameUnder, HasRange, IsPart, AppendsTo, AppendsSomeTo, Overwrites, OverwritesSome};
ghost use Rattle.ses_io.specs.Outside.{MediaOutside, OnlyReads, ReadCause, WriteCause};

use crate::Failed;

/// Files by name. `size`, `any` and `read_at` read, and change no file; `append` and `write_at`
/// write, and change the file of that name alone.
pub trait Media: Drop {
    /// What it tells: whether its files are known, which they are, and how many calls failed.
    ghost outside: { MediaOutside Self };

    /// The bytes of the file, None where it is absent.
    fn size(&mut self, name: &str) -> Result<Option<u64>, Failed>
        ensures size { outside.tells
            → IfOk result (λ n. n ≡ option_map length (outside.files self.old name.now)) }
        ensures only_reads { OnlyReads outside self.old self.new }
        ensures cause { ReadCause outside self.old self.new result };

    /// Whether some file's name begins with the prefix.
    fn any(&mut self, prefix: &str) -> Result<bool, Failed>
        ensures any { outside.tells → IfOk result
            (λ found. IsTrue found ↔ HasNameUnder (outside.files self.old) prefix.now) }
        ensures only_reads { OnlyReads outside self.old self.new }
        ensures cause { ReadCause outside self.old self.new result };

    /// Reads bytes of the file from place `at` on into the front of the buffer, and answers how
    /// many. 0, for a buffer that isn't empty, means that the file ends at or before `at`. An
    /// absent file reads as an empty one.
    fn read_at(&mut self, name: &str, at: u64, buf: &mut [u8]) -> Result<usize, Failed>
        ensures bound { IfOk result (λ n. n ≤ length buf.new) }
        ensures bytes { outside.tells
            → IfOk result (IsPart (content (outside.files self.old) name.now) at buf.new) }
        ensures end { outside.tells → IfOk result
            (λ n. n ≡ 0 → 0 < length buf.new
            → length (content (outside.files self.old) name.now) ≤ at) }
        ensures only_reads { OnlyReads outside self.old self.new }
        ensures cause { ReadCause outside self.old self.new result };

    /// Writes the first bytes of the piece to the file's end, and answers how many: at least one
    /// of a piece that isn't empty. An absent file is made first; after Failed it may still be
    /// absent.
    fn append(&mut self, name: &str, bytes: &[u8]) -> Result<usize, Failed>
        ensures bound { IfOk result (λ n. n ≤ length bytes.now) }
        ensures some { IfOk result (λ n. 0 < length bytes.now → 0 < n) }
        ensures ok { outside.tells → IfOk result
            (AppendsTo (outside.files self.old) (outside.files self.new) name.now bytes.now) }
        ensures err { outside.tells → OnErr result
            (AppendsSomeTo (outside.files self.old) (outside.files self.new) name.now bytes.now) }
        ensures cause { WriteCause outside self.old self.new result }
        ensures other_count { outside.read_faults self.new ≡ outside.read_faults self.old };

    /// Writes the first bytes of the piece over those from place `at` on, and answers how many: at
    /// least one of a piece that isn't empty.
    fn write_at(&mut self, name: &str, at: u64, bytes: &[u8]) -> Result<usize, Failed>
        requires { outside.tells
            → HasRange (outside.files self.old) name.now at (length bytes.now) }
        ensures bound { IfOk result (λ n. n ≤ length bytes.now) }
        ensures some { IfOk result (λ n. 0 < length bytes.now → 0 < n) }
        ensures ok { outside.tells → IfOk result
            (Overwrites (outside.files self.old) (outside.files self.new) name.now at bytes.now) }
        ensures err { outside.tells → OnErr result
            (OverwritesSome (outside.files self.old) (outside.files self.new)
            name.now at bytes.now) }
        ensures cause { WriteCause outside self.old self.new result }
        ensures other_count { outside.read_faults self.new ≡ outside.read_faults self.old };
}

/// Fills the buffer with the file's bytes from place `at` on, or stops at its end; answers how many
/// it read. Where the media gives them in one, it reads once. After Failed the buffer's content
/// isn't said.
pub fn read_at_full<M: Media>(
    media: &mut M,
    name: &str,
    at: u64,
    buf: &mut [u8],
) -> Result<usize, Failed>
    requires { at + length buf.old < 2 ^ 64 }
    ensures bound { IfOk result (λ n. n ≤ length buf.new) }
    ensures bytes { M.outside.tells
        → IfOk result (IsPart (content (M.outside.files media.old) name.now) at buf.new) }
    ensures all { M.outside.tells → IfOk result
        (λ n. n ≡ min (length buf.new)
        (length (content (M.outside.files media.old) name.now) - at)) }
    ensures only_reads { OnlyReads M.outside media.old media.new }
    ensures cause { ReadCause M.outside media.old media.new result }
{
    let mut filled = 0;
    while filled < buf.len() {
        let n = media.read_at(name, at + filled as u64, &mut buf[filled..])?;
        if n == 0 {
            break;
        }
        filled += n;
    }
    Ok(filled)
}
