//! Bytes that come in, in order.
ghost use Rattle.std.specs.Prelude.{◌≡◌, ℕ, ◌<◌, ◌≤◌, min, List, [], length, IfOk, OnErr};
ghost use Rattle.ses_io.specs.Faults.{HasCause};
ghost use Rattle.ses_io.specs.Outside.{SourceOutside};
ghost use Rattle.ses_io.specs.Streams.{Takes, TakesFewer};

use crate::Failed;

/// Bytes that are read once, from first to last.
pub trait Source: Drop {
    /// What it tells: whether its bytes are known, those left, and how many reads failed.
    ghost outside: { SourceOutside Self };

    /// Reads the next bytes into the front of the buffer, and answers how many. What the buffer
    /// holds behind them, or after Failed, isn't said.
    fn read(&mut self, buf: &mut [u8]) -> Result<usize, Failed>
        ensures bound { IfOk result (λ n. n ≤ length buf.new) }
        ensures bytes { outside.tells
            → IfOk result (Takes (outside.left self.old) (outside.left self.new) buf.new) }
        ensures end { outside.tells
            → IfOk result (λ n. n ≡ 0 → 0 < length buf.new → outside.left self.old ≡ []) }
        ensures unchanged { outside.tells
            → OnErr result (outside.left self.new ≡ outside.left self.old) }
        ensures cause { HasCause (outside.faults self.old) (outside.faults self.new) result };
}

/// Fills the buffer, or stops at the source's end; answers how many bytes it read. It asks for at
/// least one byte each time, and no more once the buffer is full. After Failed the bytes that the
/// source has lost stand in the buffer's front.
pub fn read_full<S: Source>(source: &mut S, buf: &mut [u8]) -> Result<usize, Failed>
    ensures bound { IfOk result (λ n. n ≤ length buf.new) }
    ensures bytes { S.outside.tells
        → IfOk result (Takes (S.outside.left source.old) (S.outside.left source.new) buf.new) }
    ensures all { S.outside.tells
        → IfOk result (λ n. n ≡ min (length buf.new) (length (S.outside.left source.old))) }
    ensures fewer { S.outside.tells
        → OnErr result
        (TakesFewer (S.outside.left source.old) (S.outside.left source.new) buf.new) }
    ensures none { length buf.old ≡ 0 → source.new ≡ source.old }
    ensures asked { OnErr result (0 < length buf.old) }
    ensures cause { HasCause (S.outside.faults source.old) (S.outside.faults source.new) result }
{
    let mut filled = 0;
    while filled < buf.len() {
        let n = source.read(&mut buf[filled..])?;
        if n == 0 {
            break;
        }
        filled += n;
    }
    Ok(filled)
}
