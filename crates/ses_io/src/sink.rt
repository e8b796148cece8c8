//! Bytes that go out, in order.
ghost use Rattle.std.specs.Prelude.{◌≡◌, ℕ, ◌<◌, ◌≤◌, List, ◌++◌, length, IfOk, OnOk, OnErr};
ghost use Rattle.ses_io.specs.Faults.{HasCause};
ghost use Rattle.ses_io.specs.Outside.{SinkOutside, Writes};
ghost use Rattle.ses_io.specs.Streams.{Appends, AppendsSome};

use crate::Failed;

/// Bytes that are only ever added to.
pub trait Sink: Drop {
    /// What it tells: whether its bytes are known, those given so far, and how many writes failed.
    ghost outside: { SinkOutside Self };

    /// Appends the first bytes of the piece, and answers how many: at least one of a piece that
    /// isn't empty.
    fn write(&mut self, bytes: &[u8]) -> Result<usize, Failed>
        ensures bound { IfOk result (λ n. n ≤ length bytes.now) }
        ensures some { IfOk result (λ n. 0 < length bytes.now → 0 < n) }
        ensures ok { outside.tells
            → IfOk result (Appends (outside.held self.old) (outside.held self.new) bytes.now) }
        ensures err { outside.tells
            → OnErr result (AppendsSome (outside.held self.old) (outside.held self.new) bytes.now) }
        ensures cause { HasCause (outside.faults self.old) (outside.faults self.new) result };
}

/// Writes the whole piece, or a prefix of it at Failed.
pub fn write_all<S: Sink>(sink: &mut S, bytes: &[u8]) -> Result<(), Failed>
    ensures { Writes S.outside bytes.now sink.old sink.new result }
{
    let mut done = 0;
    while done < bytes.len() {
        done += sink.write(&bytes[done..])?;
    }
    Ok(())
}
