//! Bytes of a stream from a place further on.
ghost use Rattle.std.specs.Prelude.{◌≡◌, ◌+◌, ◌≤◌, length, take, drop, IfOk, OnOk, OnErr};
ghost use Rattle.ses_io.specs.Faults.{HasCause};
ghost use Rattle.input_head.specs.Taken.{LosesFewer};

use ses_io::{Failed, Source, read_full};

// Takes so many bytes, or all that are left.
fn skip<I: Source>(input: &mut I, many: u64) -> Result<(), Failed>
    ensures rest { I.outside.tells
        → OnOk result (I.outside.left input.new ≡ drop many (I.outside.left input.old)) }
    ensures lost { I.outside.tells
        → OnErr result (LosesFewer many (I.outside.left input.old) (I.outside.left input.new)) }
    ensures cause { HasCause (I.outside.faults input.old) (I.outside.faults input.new) result }
{
    let mut piece = [0; 4_096];
    let mut due = many;
    while due > 0 {
        let most = due.min(4_096);
        let read = read_full(input, &mut piece[..most as usize])?;
        if (read as u64) < most {
            return Ok(());
        }
        due -= most;
    }
    Ok(())
}

/// Skips so many bytes and fills the buffer with those behind them, fewer only where the stream ends. Answers how many.
pub(crate) fn fetch<I: Source>(input: &mut I, skipped: u64, buf: &mut [u8]) -> Result<usize, Failed>
    ensures bound { IfOk result (λ n. n ≤ length buf.new) }
    ensures bytes { I.outside.tells → IfOk result (λ n. take n buf.new
        ≡ take (length buf.old) (drop skipped (I.outside.left input.old))) }
    ensures rest { I.outside.tells → OnOk result (I.outside.left input.new
        ≡ drop (skipped + length buf.old) (I.outside.left input.old)) }
    ensures lost { I.outside.tells → OnErr result (LosesFewer (skipped + length buf.old)
        (I.outside.left input.old) (I.outside.left input.new)) }
    ensures cause { HasCause (I.outside.faults input.old) (I.outside.faults input.new) result }
{
    skip(input, skipped)?;
    read_full(input, buf)
}
